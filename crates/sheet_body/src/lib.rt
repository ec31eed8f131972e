// Document 01, question 2: the lines of a sheet below its head, the quantities and then the terms.
#![tactic(auto)]

ghost use Rattle.std.specs.Prelude.{◌≡◌, ◌≤◌};
ghost use Rattle.model.specs.Reading as model;
ghost use Rattle.model.specs.Sheet.{most_quantities};
ghost use Rattle.lines.specs.Fields.{read_as};

use lines::{after, natural_field, whole_field};
use model::{MOST_QUANTITIES, MOST_TERMS, NO_QUANTITY, NO_TERM, Quantity, Refusal, Term, Terms};

// `start` alone may read `none`: no reading.
#[tactic(auto, unfolding(model::specs::Reading::start, lines::proofs::Readers::FieldReaders))]
fn read_start(text: &[u8]) -> Result<(Option<i64>, &[u8]), Refusal>
    ensures { read_as result ≡ model.start text.now }
{
    if after(text, b"start=none\n").is_some() {
        return Err(Refusal::NoReading);
    }
    let (start, text) = whole_field(text, b"start=", true, limits::START)?;
    Ok((Some(start), text))
}

// A quantity: its start, then its radius.
#[tactic(auto, unfolding(model::specs::Reading::quantity, lines::proofs::Readers::FieldReaders))]
fn read_quantity(text: &[u8]) -> Result<(Quantity, &[u8]), Refusal>
    ensures { read_as result ≡ model.quantity text.now }
{
    let (start, text) = read_start(text)?;
    let (radius, text) = natural_field(text, b"radius=", limits::RADIUS)?;
    Ok((Quantity { start, radius }, text))
}

// n quantities, one after the other, with 0 past them.
pub fn read_quantities(
    text: &[u8],
    n: usize,
) -> Result<([Quantity; MOST_QUANTITIES], &[u8]), Refusal>
    requires { n ≤ most_quantities }
    ensures { read_as result ≡ model.quantities n text.now }
{
    let mut quantities = [NO_QUANTITY; MOST_QUANTITIES];
    let mut rest = text;
    for i in 0..n {
        let (quantity, next) = read_quantity(rest)?;
        quantities[i] = quantity;
        rest = next;
    }
    Ok((quantities, rest))
}

// A term of n quantities.
#[tactic(auto, unfolding(model::specs::Reading::term, lines::proofs::Readers::FieldReaders))]
fn read_term(text: &[u8], n: usize) -> Result<(Term, &[u8]), Refusal>
    requires { n ≤ most_quantities }
    ensures { read_as result ≡ model.term n text.now }
{
    let (to, text) = natural_field(text, b"to=", limits::to_limits(n as u32))?;
    let (coef, text) = whole_field(text, b"coef=", true, limits::COEF)?;
    let (first, text) = natural_field(text, b"first=", limits::first_limits(n as u32))?;
    let first = first as usize;
    let (second, text) = natural_field(text, b"second=", limits::second_limits(n as u32, first))?;
    let term = Term {
        to: to as usize,
        coef,
        first,
        second: second as usize,
    };
    Ok((term, text))
}

// The terms of n quantities: first how many there are. Past them stands 0. Stays beside `read_quantities`: one function for both
// loops would take a slice to fill and a closure with a contract at each of its two calls, for a loop of three lines.
pub fn read_terms(text: &[u8], n: usize) -> Result<(Terms, &[u8]), Refusal>
    requires { n ≤ most_quantities }
    ensures { read_as result ≡ model.terms n text.now }
{
    let (count, text) = natural_field(text, b"terms=", limits::TERMS)?;
    let count = count as usize;
    let mut list = [NO_TERM; MOST_TERMS];
    let mut rest = text;
    for j in 0..count {
        let (term, next) = read_term(rest, n)?;
        list[j] = term;
        rest = next;
    }
    Ok((Terms { count, list }, rest))
}
