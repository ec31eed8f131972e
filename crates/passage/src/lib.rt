// A passage given as numbers, run into a lent buffer: document 01, questions 3 to 6.
#![tactic(auto)]

ghost use Rattle.std.specs.Prelude.{◌≡◌, ◌≤◌, length};
ghost use Rattle.model.specs.Sheet.{result as printed_result, refused_step, Gives, most_quantities, listed, start_ball, starts_of};
ghost use Rattle.model.specs.Rows.{balls_of, laid_out, written};
ghost use Rattle.model.specs.Passage as passage;
ghost use Rattle.enclosure.specs.Trust.{Leaves};
ghost use Rattle.passage.specs.CanRun.{CanRun};

use model::{
    Ball, Balls, Head, MOST_QUANTITIES, NO_BALL, Outcome, Quantity, Refusal, Refused, Sheet, Terms,
};
use products::Table;
use ratio::sums_of;
use rows::{put_row, width};
use taylor::take_step;
use terms::gather;
use verdict::verdict;

// The ball that a quantity starts from. Where there is no reading the sheet is refused before this is asked.
#[tactic(auto, unfolding(model::specs::Sheet::start_ball, model::specs::Sheet::start_value))]
fn start_ball(quantity: Quantity) -> Ball
    ensures { result ≡ start_ball quantity }
{
    Ball {
        value: quantity.start.unwrap_or(0),
        radius: quantity.radius,
    }
}

// The values and radii that the first step starts from, with 0 past n. Stays beside the other functions that fill an array's front: a
// loop of one line, where one over all would take a closure with its contract.
fn starts_of(sheet: &Sheet) -> Balls
    requires { sheet.now.head.n ≤ most_quantities }
    ensures { result ≡ laid_out (starts_of sheet.now) }
{
    let mut balls = [NO_BALL; MOST_QUANTITIES];
    for i in 0..sheet.head.n {
        balls[i] = start_ball(sheet.quantities[i]);
    }
    balls
}

// The steps of a passage from `start`, each row into the buffer after the last. Z0, Z1 and Z2 of the terms, and the table
// of coefficients that each step works in, are made once for all of them.
fn run_steps(head: &Head, terms: &Terms, start: &Balls, rows: &mut [i64]) -> Outcome
    requires { CanRun head.now (listed terms.now) rows.old }
    ensures ended { result ≡ (passage.follow (listed terms.now) head.now.step head.now.tail head.now.tol head.now.steps 1 (balls_of head.now.n start.now)).outcome }
    ensures put { rows.new ≡ written (passage.follow (listed terms.now) head.now.step head.now.tail head.now.tol head.now.steps 1 (balls_of head.now.n start.now)).rows rows.old }
{
    let terms = terms.listed();
    let sums = sums_of(head.n, terms);
    let mut table = Table::new();
    let mut balls = *start;
    for done in 0..head.steps {
        let stepped = take_step(head, terms, &sums, &balls, &mut table);
        let numbers = stepped.numbers;
        balls = numbers.balls;
        match stepped.advance {
            Ok(degree) => put_row(rows, head.n, done, degree, &balls, &numbers.spans),
            Err(refusal) => {
                let step = done + 1;
                return Err(Refused { refusal, step });
            }
        }
    }
    Ok(())
}

// Runs the passage of a sheet given as numbers, by its gathered terms. Refused by 3, 4 or 5, it leaves the buffer as it
// is; refused at a step, it has written the rows before that step.
pub fn run(sheet: &Sheet, rows: &mut [i64]) -> Outcome
    ensures ended { result ≡ (passage.passage sheet.now (length rows.old)).outcome }
    ensures leaves { Leaves sheet.now (passage.passage sheet.now (length rows.old)) rows.old rows.new }
    ensures numbered { Gives result (printed_result (passage.passage sheet.now (length rows.old)).outcome) (refused_step (passage.passage sheet.now (length rows.old)).outcome) }
{
    verdict(sheet)?;
    if rows.len() < sheet.head.steps * width(sheet.head.n) {
        return Err(Refusal::TooFewPlaces.into());
    }
    let start = starts_of(sheet);
    let terms = gather(&sheet.terms);
    run_steps(&sheet.head, &terms, &start, rows)
}

// How many rows the passage of a sheet has written.
#[tactic(auto, unfolding(model::specs::Passage::rows_written))]
pub fn rows_written(sheet: &Sheet, outcome: Outcome) -> usize
    ensures { result ≡ passage.rows_written sheet.now outcome }
{
    match outcome {
        Ok(()) => sheet.head.steps,
        Err(refused) => refused.step.saturating_sub(1),
    }
}
