// Document 01, question 3: a sheet given as numbers meets refusals 3 and 4 in the order of its fields.
#![tactic(auto)]

ghost use Rattle.std.specs.Prelude.{◌≡◌, ◌≤◌, pos, length};
ghost use Rattle.model.specs.Sheet.{most_quantities, most_steps, verdict_number, verdict_outcome, Gives, ask, in_range, step_verdict, head_verdict, start_verdict, quantity_verdict, quantities_verdict, term_verdict, terms_verdict, sheet_verdict};

use limits::{natural_within, step_within, within};
use model::{Head, Limits, MOST_STEPS, Outcome, Quantity, Refusal, Sheet, Term, Terms};

// Refusal 3 where a number is not in its range.
#[tactic(auto, unfolding(model::specs::Sheet::ask, model::specs::Sheet::verdict_outcome))]
fn asked(answer: bool) -> Outcome
    ensures { result ≡ verdict_outcome (ask answer Refusal.OutOfRange) }
{
    if answer {
        Ok(())
    } else {
        Err(Refusal::OutOfRange.into())
    }
}

// Whether a number is in its range.
fn in_range(limits: Limits, z: i64) -> Outcome
    ensures { result ≡ verdict_outcome (in_range limits z) }
{
    asked(within(limits, z))
}

// The same of a natural number.
#[tactic(auto, unfolding(model::specs::Sheet::in_range))]
fn natural_in_range(limits: Limits, m: u64) -> Outcome
    ensures { result ≡ verdict_outcome (in_range limits (pos m)) }
{
    asked(natural_within(limits, m))
}

// The step: 3 where it is 0 or too long.
fn step_verdict(step: i64) -> Outcome
    ensures { result ≡ verdict_outcome (step_verdict step) }
{
    asked(step_within(step))
}

// The numbers above the quantities.
fn head_verdict(head: &Head) -> Outcome
    ensures { result ≡ verdict_outcome (head_verdict most_steps head.now) }
{
    natural_in_range(limits::N, head.n as u64)?;
    natural_in_range(limits::steps_limits(MOST_STEPS as u32), head.steps as u64)?;
    step_verdict(head.step)?;
    natural_in_range(limits::TAIL, head.tail)?;
    natural_in_range(limits::TOL, head.tol)
}

// A start: 4 where there is no reading.
fn start_verdict(start: Option<i64>) -> Outcome
    ensures { result ≡ verdict_outcome (start_verdict start) }
{
    let z = start.ok_or(Refusal::NoReading)?;
    in_range(limits::START, z)
}

// A quantity: its start, then its radius.
fn quantity_verdict(quantity: &Quantity) -> Outcome
    ensures { result ≡ verdict_outcome (quantity_verdict quantity.now) }
{
    start_verdict(quantity.start)?;
    natural_in_range(limits::RADIUS, quantity.radius)
}

// The quantities, one after the other.
fn quantities_verdict(quantities: &[Quantity]) -> Outcome
    ensures { result ≡ verdict_outcome (quantities_verdict (length quantities.now) quantities.now) }
{
    for quantity in quantities {
        quantity_verdict(quantity)?;
    }
    Ok(())
}

// A term of n quantities, field by field.
fn term_verdict(n: usize, term: &Term) -> Outcome
    requires { n ≤ most_quantities }
    ensures { result ≡ verdict_outcome (term_verdict n term.now) }
{
    natural_in_range(limits::to_limits(n as u32), term.to as u64)?;
    in_range(limits::COEF, term.coef)?;
    natural_in_range(limits::first_limits(n as u32), term.first as u64)?;
    let second_limits = limits::second_limits(n as u32, term.first);
    natural_in_range(second_limits, term.second as u64)
}

// The terms of n quantities: first how many there are.
fn terms_verdict(n: usize, terms: &Terms) -> Outcome
    requires { n ≤ most_quantities }
    ensures { result ≡ verdict_outcome (terms_verdict n terms.now) }
{
    natural_in_range(limits::TERMS, terms.count as u64)?;
    for term in terms.listed() {
        term_verdict(n, term)?;
    }
    Ok(())
}

// What the ranges say of a sheet given as numbers; nothing past its counts is looked at.
pub fn verdict(sheet: &Sheet) -> Outcome
    ensures whole { result ≡ verdict_outcome (sheet_verdict sheet.now) }
    ensures numbered { Gives result (verdict_number (sheet_verdict sheet.now)) 0 }
{
    let n = sheet.head.n;
    head_verdict(&sheet.head)?;
    quantities_verdict(&sheet.quantities[..n])?;
    terms_verdict(n, &sheet.terms)
}
