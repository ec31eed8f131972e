// One step with its questions: document 01, questions 4 to 6 and 'One rounded step'.
ghost use Rattle.std.specs.Prelude.{◌≡◌, leb};
ghost use Rattle.model.specs.Sheet.{most};
ghost use Rattle.model.specs.Step as rule;
ghost use Rattle.model.specs.Rows.{balls_of};
ghost use Rattle.model.specs.Passage as passage;
ghost use Rattle.coefficients.specs.Orders.{Usable};
ghost use Rattle.ratio.specs.Ratio.{SumsOf};
ghost use Rattle.taylor.specs.StepAnswers.{CanRow, CanStep, row_laid_out, answered};

use coefficients::{fill_orders, start_orders};
use model::{Ball, Balls, Head, MOST, MOST_QUANTITIES, MOST_RATIO, NO_SPAN, Refusal, Spans, Term};
use new_row::Orders;
use products::Table;
use ratio::{Sums, Truncation, largest_reach, ratio, truncate};

// A row's values and radii, its lows and highs.
#[derive(Clone, Copy)]
pub struct Numbers {
    pub balls: Balls,
    pub spans: Spans,
}

// What a step comes to, a row's degree or the refusal of the first question that is answered no; and the numbers of its row.
// A refused step leaves the values and radii that it started from, and no lows and highs. Stays: the clause `whole` of
// `single_step::step` and the edits refused_step_leaves_the_new_row and refused_step_with_spans hold what stands beside a
// refusal.
#[derive(Clone, Copy)]
pub struct Stepped {
    pub advance: Result<usize, Refusal>,
    pub numbers: Numbers,
}

// A step that is refused.
#[tactic(auto, unfolding(crate::specs::StepAnswers::answered, crate::specs::StepAnswers::advance_of, model::specs::Rows::no_spans, model::specs::Rows::spans_laid_out, model::specs::Sheet::padded, model::specs::Step::no_span))]
pub fn stopped(refusal: Refusal, start: Balls) -> Stepped
    ensures { result ≡ answered start (passage.stops refusal) }
{
    Stepped {
        advance: Err(refusal),
        numbers: Numbers {
            balls: start,
            spans: [NO_SPAN; MOST_QUANTITIES],
        },
    }
}

// Is |value| + radius at most 32 wholes? Each alone may be far above.
#[tactic(auto, unfolding(model::specs::Step::reach, model::specs::Sheet::most))]
fn within(ball: &Ball) -> bool
    ensures { result ≡ leb (rule.reach ball.now) most }
{
    ball.value.unsigned_abs().saturating_add(ball.radius) <= MOST
}

// Question 4: is it so of every quantity?
pub fn small(balls: &[Ball]) -> bool
    ensures { result ≡ passage.small balls.now }
{
    balls.iter().all(within)
}

// Question 6: is every radius at most the tolerance?
fn tolerable(tol: u64, balls: &[Ball]) -> bool
    ensures { result ≡ passage.tolerable tol balls.now }
{
    balls.iter().all(|ball| ball.radius <= tol)
}

// The numbers of the new row of a step whose questions 4 and 5 are answered yes, with 0 past n.
fn row_of(
    head: &Head,
    cut: Truncation,
    terms: &[Term],
    start: &[Ball],
    table: &mut Table,
) -> Numbers
    requires { CanRow head.now cut terms.now start.now table.old }
    ensures row { result ≡ row_laid_out (rule.new_row terms.now head.now.step start.now cut.degree cut.tail) }
    ensures usable { Usable head.now.n table.new }
{
    start_orders(table, start);
    fill_orders(table, head.n, head.step, cut.degree, terms);
    let orders = Orders::of(table, cut.degree, cut.tail);
    Numbers {
        balls: orders.balls(head.n),
        spans: orders.spans(head.n),
    }
}

// One step of a passage from the balls `start`, with its questions. `sums` are Z0, Z1 and Z2 of its terms, and `table` is
// one to work in.
pub fn take_step(
    head: &Head,
    terms: &[Term],
    sums: &Sums,
    start: &Balls,
    table: &mut Table,
) -> Stepped
    requires can_step { CanStep head.now terms.now }
    requires sums_of { SumsOf terms.now head.now.n sums.now }
    requires usable_before { Usable head.now.n table.old }
    ensures stepped { result ≡ answered start.now (passage.advance terms.now head.now.step head.now.tail head.now.tol (balls_of head.now.n start.now)) }
    ensures usable { Usable head.now.n table.new }
{
    let balls = &start[..head.n];
    if !small(balls) {
        return stopped(Refusal::TooLarge, *start);
    }
    let reach = largest_reach(balls);
    let q = ratio(head.step, reach, &sums[..head.n]);
    if MOST_RATIO < q {
        return stopped(Refusal::StepTooLong, *start);
    }
    let cut = truncate(reach, q, head.tail);
    let numbers = row_of(head, cut, terms, balls, table);
    if !tolerable(head.tol, &numbers.balls[..head.n]) {
        return stopped(Refusal::Intolerable, *start);
    }
    Stepped {
        advance: Ok(cut.degree),
        numbers,
    }
}
