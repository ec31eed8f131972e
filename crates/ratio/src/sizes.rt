// Document 01, 'Ratio and tail': G, the sizes and the ratio.
ghost use Rattle.std.specs.Prelude.{◌≡◌, ℕ, suc, ◌≤◌, ◌<◌, nat_abs, length, get_or};
ghost use Rattle.model.specs.Sheet.{scale, most, most_quantities};
ghost use Rattle.ranges.specs.Range.{largest};
ghost use Rattle.model.specs.Step as rule;
ghost use Rattle.laws.specs.Bounds.{Summable};
ghost use Rattle.ratio.specs.Ratio.{sum_at, SumsOf, Few, Reaching, Sized};

use model::{Ball, MOST_QUANTITIES, SCALE, Term};
use rounding::up;

// A term has no factor, one or two: so many sums of |A| has a target.
pub const COUNTS: usize = 3;

// Z0, Z1 and Z2 of each target.
pub type Sums = [[u64; COUNTS]; MOST_QUANTITIES];

// G: the largest of s and every |value| + radius.
#[tactic(auto, unfolding(model::specs::Step::reach, model::specs::Step::greatest, model::specs::Step::no_ball, model::specs::Sheet::scale, model::specs::Sheet::most, ranges::specs::Range::largest), using(crate::proofs::Balls::largest_more))]
pub fn largest_reach(balls: &[Ball]) -> u64
    requires { (i : ℕ) → i < length balls.now → rule.reach (get_or balls.now i rule.no_ball) ≤ most }
    ensures { result ≡ rule.greatest balls.now }
{
    let mut largest = SCALE;
    for ball in balls {
        largest = largest.max(ball.value.unsigned_abs() + ball.radius);
    }
    largest
}

// How many factors a term has.
#[tactic(auto, unfolding(model::specs::Step::factors))]
fn factors(term: &Term) -> usize
    ensures { result ≡ rule.factors term.now }
{
    if term.first == 0 {
        0
    } else if term.second == 0 {
        1
    } else {
        2
    }
}

// What a term brings to a target's sum of |A| over its terms with so many factors. Stays: a count of factors, by which the sums are
// indexed, is no kind.
#[tactic(auto, unfolding(model::specs::Step::brings, model::specs::Step::coef_of))]
fn coef_of(target: usize, count: usize, term: &Term) -> u64
    ensures { result ≡ rule.brings target term.now (rule.coef_of count term.now) }
{
    if term.to == target && factors(term) == count {
        term.coef.unsigned_abs()
    } else {
        0
    }
}

// Z0, Z1 or Z2: the sum of |A| over the target's terms with so many factors.
fn coefs(target: usize, count: usize, terms: &[Term]) -> u64
    requires { Summable terms.now }
    ensures { result ≡ rule.coefs terms.now target count }
{
    let mut sum = 0;
    for term in terms {
        sum += coef_of(target, count, term);
    }
    sum
}

// Z0, Z1 and Z2 of each of n targets, which are the same at every step of a passage.
pub fn sums_of(n: usize, terms: &[Term]) -> Sums
    requires n_le_most_quantities { n ≤ most_quantities }
    requires summable { Summable terms.now }
    ensures { SumsOf terms.now n result }
{
    let mut sums = [[0; COUNTS]; MOST_QUANTITIES];
    for i in 0..n {
        let target = i + 1;
        sums[i] = [
            coefs(target, 0, terms),
            coefs(target, 1, terms),
            coefs(target, 2, terms),
        ];
    }
    sums
}

// A target's size: up(s × Z0, G) + Z1 + up(G × Z2, s).
#[tactic(auto, unfolding(model::specs::Step::size, model::specs::Sheet::scale), using(crate::proofs::Ratios::none_fits, crate::proofs::Ratios::two_fits, crate::proofs::Ratios::size_fits))]
fn size(reach: u64, sums: &[u64; COUNTS]) -> u64
    requires few { Few sums.now }
    requires reaching { Reaching reach }
    ensures { result ≡ rule.size reach (λ count. get_or sums.now count 0) }
{
    let [none, one, two] = *sums;
    up(SCALE * none, reach) + one + up(reach * two, SCALE)
}

// b: the largest size over the quantities.
#[tactic(auto, unfolding(ranges::specs::Range::largest, crate::specs::Ratio::sum_at), using(crate::proofs::Balls::largest_more))]
fn largest_size(reach: u64, sums: &[[u64; COUNTS]]) -> u64
    requires { Sized reach sums.now }
    ensures { result ≡ largest (length sums.now) (λ i. rule.size reach (sum_at sums.now i)) }
{
    let mut largest: u64 = 0;
    for own in sums {
        largest = largest.max(size(reach, own));
    }
    largest
}

// q = up(b × |H|, s).
#[tactic(auto, unfolding(model::specs::Step::ratio_by, model::specs::Sheet::scale))]
pub fn ratio(step: i64, reach: u64, sums: &[[u64; COUNTS]]) -> u64
    requires step_bound { nat_abs step ≤ scale }
    requires sized { Sized reach sums.now }
    ensures { result ≡ rule.ratio_by (sum_at sums.now) step (length sums.now) reach }
{
    let largest = largest_size(reach, sums);
    up(largest * step.unsigned_abs(), SCALE)
}
