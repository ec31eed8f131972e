// Document 01, 'Ratio and tail': the degree and its tail.
ghost use Rattle.std.specs.Prelude.{◌≡◌, ◌≤◌};
ghost use Rattle.model.specs.Sheet.{most};
ghost use Rattle.model.specs.Step.{degree, tail_at};
ghost use Rattle.model.specs.Passage.{most_ratio};

use model::{MOST_DEGREE, SCALE};
use rounding::up;

// The degree of a step and its tail.
#[derive(Clone, Copy)]
pub struct Truncation {
    pub degree: usize,
    pub tail: u64,
}

// The least k from 0 up whose tail is at most `limit`, and that tail. `reach` is G, and `majorant` p_0, p_1, .. in turn. The
// tail at 28 is at most 2, so that a k is always found.
pub fn truncate(reach: u64, ratio: u64, limit: u64) -> Truncation
    requires reach_le_most { reach ≤ most }
    requires ratio_le_most_ratio { ratio ≤ most_ratio }
    requires le_limit { 2 ≤ limit }
    ensures degree { result.degree ≡ degree reach ratio limit }
    ensures tail { result.tail ≡ tail_at reach ratio (degree reach ratio limit) }
{
    let mut majorant = reach;
    for degree in 0..=MOST_DEGREE {
        majorant = up(majorant * ratio, SCALE);
        let tail = up(majorant * SCALE, SCALE - ratio);
        if tail <= limit {
            return Truncation { degree, tail };
        }
    }
    unreachable!()
}
