// Document 02, CR 2 and CR 6: the first run of rows in which a ship has water enough for certain, all the way. A clearance is a
// base and a weighed sum of the quantities; a row is certain where it is at least the need with each quantity at its low, or at
// its high where its weight is negative.
#![tactic(auto)]

ghost use Rattle.std.specs.Prelude.{◌≡◌, length};
ghost use Rattle.model.specs.Sheet.{result as printed_result, refused_step, Gives};
ghost use Rattle.model.specs.Passage as passage;
ghost use Rattle.enclosure.specs.Trust.{Leaves};
ghost use Rattle.clear_rule.specs.Asked.{NamesRow};
ghost use Rattle.clear_rule.specs.Claim.{Said, SaidBy, SaidOf};
ghost use Rattle.clear_rule.specs.Clearance as clearance;

pub use clear_rule::{Found, Query};
use clear_search::{first_run, query_within, rows_within};
use limits::natural_within;
use model::{Limits, MOST_QUANTITIES, MOST_STEPS, Outcome, Refusal, Sheet, minus_number};
use passage::{rows_written, run};
use rows::{Rows, width};

// A count of rows: 0..240.
const COUNT: Limits = Limits {
    low: 0,
    high: MOST_STEPS as i64,
};

// The first of `count` rows of n quantities that opens a run of certain rows. Nothing past the count is looked at.
pub fn first_clear(n: usize, count: usize, rows: &[i64], query: &Query) -> Found
    ensures found { result ≡ clearance.first_clear n count rows.now query.now }
    ensures said { Said n count rows.now query.now result }
    ensures numbered { clearance.Names result (clearance.first_clear n count rows.now query.now) }
{
    if !natural_within(limits::N, n as u64) {
        return Err(Refusal::OutOfRange);
    }
    if !natural_within(COUNT, count as u64) {
        return Err(Refusal::OutOfRange);
    }
    if rows.len() < count * width(n) {
        return Err(Refusal::TooFewPlaces);
    }
    if !query_within(n, query) {
        return Err(Refusal::QueryOutOfRange);
    }
    let rows = Rows::of(rows, n, count);
    if !rows_within(rows) {
        return Err(Refusal::RowOutOfRange);
    }
    Ok(first_run(rows, query))
}

// An answer as one number: the row's, 0 for none, or a refusal's with a minus.
#[tactic(auto, unfolding(clear_rule::specs::Clearance::found_number, clear_rule::specs::Asked::NamesRow))]
fn found_number(found: Found) -> i64
    requires { NamesRow found }
    ensures { result ≡ clearance.found_number found }
{
    match found {
        Ok(Some(row)) => row as i64,
        Ok(None) => 0,
        Err(refusal) => minus_number(refusal),
    }
}

// `first_clear` for C: the weights are lent, and the answer is one number.
pub fn planner_first_clear(
    n: usize,
    count: usize,
    rows: &[i64],
    weights: &[i64; MOST_QUANTITIES],
    base: i64,
    need: i64,
    run: usize,
) -> i64
    ensures found { result ≡ clearance.found_number (clearance.first_clear n count rows.now (record { weights = weights.now; base = base; need = need; run = run })) }
    ensures said { SaidBy n count rows.now (record { weights = weights.now; base = base; need = need; run = run }) result }
{
    let query = Query {
        weights: *weights,
        base,
        need,
        run,
    };
    found_number(first_clear(n, count, rows, &query))
}

// What came of a passage, and the first run of certain rows among those that it wrote. Stays: two answers, of which neither says whether
// the other is there (clauses `ended`, `found`).
#[derive(Clone, Copy)]
pub struct RunFound {
    pub outcome: Outcome,
    pub found: Found,
}

// Runs the passage of a sheet given as numbers, as `passage::run` does, and looks through the rows that it wrote.
pub fn run_and_find(sheet: &Sheet, rows: &mut [i64], query: &Query) -> RunFound
    ensures ended { result.outcome ≡ (passage.passage sheet.now (length rows.old)).outcome }
    ensures leaves { Leaves sheet.now (passage.passage sheet.now (length rows.old)) rows.old rows.new }
    ensures numbered { Gives result.outcome (printed_result (passage.passage sheet.now (length rows.old)).outcome) (refused_step (passage.passage sheet.now (length rows.old)).outcome) }
    ensures found { result.found ≡ clearance.first_clear sheet.now.head.n (passage.rows_written sheet.now result.outcome) rows.new query.now }
    ensures said { SaidOf sheet.now query.now rows.new result.outcome result.found }
    ensures found_numbered { clearance.Names result.found (clearance.first_clear sheet.now.head.n (passage.rows_written sheet.now result.outcome) rows.new query.now) }
{
    let outcome = run(sheet, rows);
    let count = rows_written(sheet, outcome);
    RunFound {
        outcome,
        found: first_clear(sheet.head.n, count, rows, query),
    }
}
