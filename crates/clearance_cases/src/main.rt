// Runs `run_and_find` of passages given as numbers: case A of document 01 and what it becomes with more steps, back, with
// nine quantities, with too few places and with queries that are refused; and a quantity that rises through three rows.
// Each line is what came of one; the file `stdout` beside src/ has what they must be.
#![tactic(auto)]

use clearance::{Found, Query, run_and_find};
use model::{Head, MOST_QUANTITIES, MOST_TERMS, Quantity, Sheet, Term, Terms};
use std::io;

// One term in the rate of the first of so many quantities, from one whole, over so many steps.
fn sheet(n: usize, steps: usize, step: i64, term: Term) -> Sheet {
    let quantity = Quantity {
        start: Some(16777216),
        radius: 0,
    };
    Sheet {
        head: Head {
            n,
            steps,
            step,
            tail: 349526,
            tol: 349534,
        },
        quantities: [quantity; MOST_QUANTITIES],
        terms: Terms {
            count: 1,
            list: [term; MOST_TERMS],
        },
    }
}

// x' = x × x.
fn square(n: usize, steps: usize, step: i64) -> Sheet {
    let term = Term {
        to: 1,
        coef: 16777216,
        first: 1,
        second: 1,
    };
    sheet(n, steps, step, term)
}

// x' = 1.
fn rising(steps: usize, step: i64) -> Sheet {
    let term = Term {
        to: 1,
        coef: 16777216,
        first: 0,
        second: 0,
    };
    sheet(1, steps, step, term)
}

// What was found.
fn print_found(rt: &HostRuntime, found: Found) -> io::Result<()> {
    match found {
        Ok(Some(row)) => println!(rt; " first={row}"),
        Ok(None) => println!(rt; " first=0"),
        Err(refusal) => println!(rt; " refused={}", model::number(refusal)),
    }
}

// Runs a sheet with places for three rows lent, and asks for at least `need` units of a weight times its first quantity.
fn ask(rt: &HostRuntime, sheet: Sheet, weight: i64, need: i64, run: usize) -> io::Result<()> {
    let mut weights = [0i64; MOST_QUANTITIES];
    weights[0] = weight;
    let query = Query {
        weights,
        base: 0,
        need,
        run,
    };
    let mut rows = [0i64; 15];
    let came = run_and_find(&sheet, &mut rows, &query);
    let result = model::result(came.outcome);
    let at = model::refused_step(came.outcome);
    print!(rt; "result={result} at={at}")?;
    print_found(rt, came.found)
}

// One row, 22020096 within 349534, and from 11184802 to 22369630 all the way: at the need, and a unit short of it; a run of
// two; a run of none. Certain at the end of the step, 22020096 - 349534, and not all the way. No more than the high, and a
// unit less.
fn ask_of_one_row(rt: &HostRuntime) -> io::Result<()> {
    ask(rt, square(1, 1, 4194304), 16777216, 11184802, 1)?;
    ask(rt, square(1, 1, 4194304), 16777216, 11184803, 1)?;
    ask(rt, square(1, 1, 4194304), 16777216, 11184802, 2)?;
    ask(rt, square(1, 1, 4194304), 16777216, 11184802, 0)?;
    ask(rt, square(1, 1, 4194304), 16777216, 21670562, 1)?;
    ask(rt, square(1, 1, 4194304), -16777216, -22369630, 1)?;
    ask(rt, square(1, 1, 4194304), -16777216, -22369629, 1)
}

// The same row, and step 2 refused. Back: 13631488 within 349534, and between the same ends.
fn ask_of_more_steps_and_back(rt: &HostRuntime) -> io::Result<()> {
    ask(rt, square(1, 3, 4194304), 16777216, 11184802, 1)?;
    ask(rt, square(1, 3, 4194304), 16777216, 11184803, 1)?;
    ask(rt, square(1, 1, -4194304), 16777216, 11184802, 1)?;
    ask(rt, square(1, 1, -4194304), 16777216, 11184803, 1)
}

// Three rows, from 15658731, 16642038 and 17629393 up: the first row, the second, the third; two in a row, three, and none.
fn ask_of_three_rows(rt: &HostRuntime) -> io::Result<()> {
    ask(rt, rising(3, 1048576), 16777216, 15658731, 3)?;
    ask(rt, rising(3, 1048576), 16777216, 16642038, 2)?;
    ask(rt, rising(3, 1048576), 16777216, 16642039, 1)?;
    ask(rt, rising(3, 1048576), 16777216, 16642038, 3)?;
    ask(rt, rising(3, 1048576), 16777216, 17629394, 1)
}

// No row: a ratio past one half, too few places, no step; and n out of range, which the query has too.
fn ask_of_no_row(rt: &HostRuntime) -> io::Result<()> {
    ask(rt, square(1, 1, 8388609), 16777216, 0, 1)?;
    ask(rt, square(1, 4, 4194304), 16777216, 0, 1)?;
    ask(rt, square(1, 1, 0), 16777216, 0, 0)?;
    ask(rt, square(9, 1, 4194304), 16777216, 0, 1)
}

fn main(rt: HostRuntime) -> io::Result<()> {
    ask_of_one_row(&rt)?;
    ask_of_more_steps_and_back(&rt)?;
    ask_of_three_rows(&rt)?;
    ask_of_no_row(&rt)
}
