// Document 01, 'The sheet': the range of each field, as data that the reading of a text and the verdict on numbers share;
// and whether a number lies in one.
#![tactic(auto)]

ghost use Rattle.std.specs.Prelude.{◌≡◌, pos};
ghost use Rattle.model.specs.Sheet as model;
ghost use Rattle.model.specs.Sheet.{from◌to◌};

use model::{Limits, MOST, MOST_COEF, MOST_QUANTITIES, MOST_TERMS, SCALE};

// low .. high. (They are u32 here, so that the limits can hold each.)
fn from_to(low: u32, high: u32) -> Limits
    ensures { result ≡ (from low to high) }
{
    Limits {
        low: i64::from(low),
        high: i64::from(high),
    }
}

// n: 1..8.
pub const N: Limits = Limits {
    low: 1,
    high: MOST_QUANTITIES as i64,
};

// steps: 1 up to the most that are taken.
#[tactic(auto, unfolding(model::specs::Sheet::steps_limits))]
pub fn steps_limits(most: u32) -> Limits
    ensures { result ≡ model.steps_limits most }
{
    from_to(1, most)
}

// The step's length: 1..16777216.
const STEP: Limits = Limits {
    low: 1,
    high: SCALE as i64,
};

// step: -16777216..-1 and 1..16777216.
pub fn step_within(step: i64) -> bool
    ensures { result ≡ model.step_within step }
{
    natural_within(STEP, step.unsigned_abs())
}

// tail: 2..16777216.
pub const TAIL: Limits = Limits {
    low: 2,
    high: SCALE as i64,
};

// tol: 1..536870912.
pub const TOL: Limits = Limits {
    low: 1,
    high: MOST as i64,
};

// start: -536870912..536870912.
pub const START: Limits = Limits {
    low: -(MOST as i64),
    high: MOST as i64,
};

// radius: 0..536870912.
pub const RADIUS: Limits = Limits {
    low: 0,
    high: MOST as i64,
};

// terms: 0..32.
pub const TERMS: Limits = Limits {
    low: 0,
    high: MOST_TERMS as i64,
};

// `to` names one of the n quantities. Stays, as the limits of `steps` and `first` do: each is a line of document 01 and a definition of
// its own.
#[tactic(auto, unfolding(model::specs::Sheet::to_limits))]
pub fn to_limits(n: u32) -> Limits
    ensures { result ≡ model.to_limits n }
{
    from_to(1, n)
}

// `coef`, the same for every n.
pub const COEF: Limits = Limits {
    low: -(MOST_COEF as i64),
    high: MOST_COEF as i64,
};

// A factor names one of the n quantities, or is 0: no factor.
#[tactic(auto, unfolding(model::specs::Sheet::first_limits))]
pub fn first_limits(n: u32) -> Limits
    ensures { result ≡ model.first_limits n }
{
    from_to(0, n)
}

// Where `first` is 0, any `second` but 0 is out of range.
#[tactic(auto, unfolding(model::specs::Sheet::first_limits, model::specs::Sheet::second_limits))]
pub fn second_limits(n: u32, first: usize) -> Limits
    ensures { result ≡ model.second_limits n first }
{
    if first == 0 {
        Limits { low: 0, high: 0 }
    } else {
        first_limits(n)
    }
}

// Whether a number lies in its limits.
pub fn within(limits: Limits, z: i64) -> bool
    ensures { result ≡ model.within limits z }
{
    limits.low <= z && z <= limits.high
}

// The same of a natural number, which may be too large for an i64: it is then above every limit.
pub fn natural_within(limits: Limits, m: u64) -> bool
    ensures { result ≡ model.within limits (pos m) }
{
    match i64::try_from(m) {
        Ok(z) => within(limits, z),
        Err(_) => false,
    }
}
