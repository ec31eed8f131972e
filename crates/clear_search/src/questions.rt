// What is asked before the search: is the query in its ranges, and are the rows?
ghost use Rattle.std.specs.Prelude.{◌≡◌, ◌≤◌, pos, length, get_or};
ghost use Rattle.std.specs.List.{list_all};
ghost use Rattle.ranges.specs.Range.{every};
ghost use Rattle.model.specs.Sheet as sheet;
ghost use Rattle.model.specs.Sheet.{most_quantities};
ghost use Rattle.rows.specs.View.{buffer_of, places_of};
ghost use Rattle.clear_rule.specs.Clearance as clearance;

use clear_rule::Query;
use limits::{natural_within, within};
use model::{Limits, MOST, MOST_STEPS};
use rows::{Part, Row, Rows};

// The largest weight, without its sign: 4 wholes.
const MOST_WEIGHT: i64 = 67108864;

// A weight: -67108864..67108864.
const WEIGHT: Limits = Limits {
    low: -MOST_WEIGHT,
    high: MOST_WEIGHT,
};

// A base and a need: -536870912..536870912.
const DEPTH: Limits = Limits {
    low: -(MOST as i64),
    high: MOST as i64,
};

// A run length: 1..240.
const RUN: Limits = Limits {
    low: 1,
    high: MOST_STEPS as i64,
};

// The largest number in the rows, without its sign: 2^31.
const MOST_PLACE: i64 = 2147483648;

// A value in the rows, a low and a high: -2^31..2^31.
const VALUE: Limits = Limits {
    low: -MOST_PLACE,
    high: MOST_PLACE,
};

// A radius in the rows: 0..2^31.
const RADIUS: Limits = Limits {
    low: 0,
    high: MOST_PLACE,
};

// Whether each number lies in its limits. Stays: a loop, since by `all` a search took more time (docs/DESIGN-PASS.md has it); and over
// places, of which the edit code_first_number_not_asked leaves out the first.
fn all_within(numbers: &[i64], limits: Limits) -> bool
    ensures { result ≡ list_all (sheet.within limits) numbers.now }
{
    for i in 0..numbers.len() {
        if !within(limits, numbers[i]) {
            return false;
        }
    }
    true
}

// Whether the weights of n quantities, the base, the need and the run are in their ranges.
pub fn query_within(n: usize, query: &Query) -> bool
    requires { n ≤ most_quantities }
    ensures { result ≡ clearance.query_within n query.now }
{
    all_within(&query.weights[..n], WEIGHT)
        && within(DEPTH, query.base)
        && within(DEPTH, query.need)
        && natural_within(RUN, query.run as u64)
}

// Whether the values, the radii, the lows and the highs of a row are in their ranges.
fn row_within(row: Row) -> bool
    ensures { result ≡ clearance.row_within row.entry.n (places_of row.entry) 0 }
{
    all_within(row.part(Part::Values), VALUE)
        && all_within(row.part(Part::Radii), RADIUS)
        && all_within(row.part(Part::Lows), VALUE)
        && all_within(row.part(Part::Highs), VALUE)
}

// Whether those of every counted row are.
// Stays: of `(0..rows.count).all(..)` the check finds no answer, since the row that its closure makes has its ranges by a lemma (`row_led`).
pub fn rows_within(rows: Rows) -> bool
    ensures { result ≡ every rows.entry.count (clearance.row_within rows.entry.n (buffer_of rows.entry)) }
{
    for row in 0..rows.count {
        if !row_within(rows.row(row)) {
            return false;
        }
    }
    true
}
