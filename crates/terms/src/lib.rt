// Document 02, 'Like terms': like terms are added, in the place of the earliest, and a sum of 0 drops out.
#![tactic(auto)]

ghost use Rattle.std.specs.Prelude.{◌≡◌, ◌+◌, ◌^◌, ◌≤◌, ◌<◌, nat_abs, ◌+ℤ◌, length, position};
ghost use Rattle.model.specs.Sheet.{most_terms, listed};
ghost use Rattle.model.specs.LikeTerms as rule;
ghost use Rattle.laws.specs.Bounds.{Summable};

use model::{MOST_TERMS, NO_TERM, Term, Terms};

// Whether two terms have the same target and the same factors, in either order.
#[tactic(auto, unfolding(model::specs::LikeTerms::like))]
fn like(a: &Term, b: &Term) -> bool
    ensures { result ≡ rule.like a.now b.now }
{
    a.to == b.to
        && ((a.first, a.second) == (b.first, b.second)
            || (a.first, a.second) == (b.second, b.first))
}

// A term with the coefficient of another added to its own.
fn plus(term: &Term, other: &Term) -> Term
    requires { nat_abs term.now.coef + nat_abs other.now.coef < 2 ^ 63 }
    ensures { result ≡ record { to = term.now.to; coef = term.now.coef +ℤ other.now.coef; first = term.now.first; second = term.now.second } }
{
    let coef = term.coef + other.coef;
    Term { coef, ..*term }
}

// The place of the first of the sums that a term is like.
fn place_of(term: &Term, sums: &[Term]) -> Option<usize>
    ensures { result ≡ position (λ sum. rule.like sum term.now) sums.now }
{
    sums.iter().position(|sum| like(sum, term))
}

// All like terms added. Each term is added to the first of the sums that it is like, or is the last of them itself.
fn sum_like(terms: &[Term]) -> Terms
    requires { Summable terms.now }
    ensures sums { listed result ≡ rule.summed terms.now }
    ensures few { result.count ≤ most_terms }
{
    let mut sums = [NO_TERM; MOST_TERMS];
    let mut count = 0;
    for term in terms {
        match place_of(term, &sums[..count]) {
            Some(i) => sums[i] = plus(&sums[i], term),
            None => {
                sums[count] = *term;
                count += 1;
            }
        }
    }
    Terms { count, list: sums }
}

// Whether A is not 0.
#[tactic(auto, unfolding(model::specs::LikeTerms::nonzero))]
fn nonzero(term: &Term) -> bool
    ensures { result ≡ rule.nonzero term.now }
{
    term.coef != 0
}

// The sums that are not 0, in their order.
fn drop_zeros(sums: &[Term]) -> Terms
    requires { length sums.now ≤ most_terms }
    ensures { listed result ≡ rule.filter rule.nonzero sums.now }
{
    let mut left = [NO_TERM; MOST_TERMS];
    let mut kept = 0;
    for sum in sums {
        if nonzero(sum) {
            left[kept] = *sum;
            kept += 1;
        }
    }
    Terms {
        count: kept,
        list: left,
    }
}

// The terms that ratio, tail and rounded step work on.
#[tactic(auto, using(laws::proofs::Bounds::CountedTerms::few_listed, laws::proofs::Bounds::CountedTerms::length_listed))]
pub fn gather(terms: &Terms) -> Terms
    requires { Summable (listed terms.now) }
    ensures { listed result ≡ rule.gathered (listed terms.now) }
{
    let sums = sum_like(terms.listed());
    drop_zeros(sums.listed())
}
