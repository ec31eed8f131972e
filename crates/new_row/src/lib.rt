// Document 01, 'New row', and document 02's lows and highs: the sums of the orders, from a table of coefficients.
#![tactic(auto)]

ghost use Rattle.std.specs.Prelude.{◌≡◌, ◌^◌, ◌≤◌, ◌<◌, sum_by};
ghost use Rattle.model.specs.Step.{most_degree};
ghost use Rattle.products.specs.Table.{Small};

use model::{Ball, Balls, NO_BALL, NO_SPAN, Span, Spans};
use products::{Coefficient, Table};
use std::array::from_fn;

// The sum of |c| + e over some orders of a quantity.
fn reach_of(orders: &[Coefficient]) -> u64
    requires { sum_by (λ c. c.reach) orders.now < 2 ^ 64 }
    ensures { result ≡ sum_by (λ c. c.reach) orders.now }
{
    orders.iter().map(|c| c.reach).sum()
}

// The orders 0 to the degree of a table of coefficients, and the tail: what a new row is summed from.
#[derive(Clone, Copy)]
pub struct Orders<'a> {
    table: &'a Table,
    degree: usize,
    tail: u64,
    ghost degree_le_most_degree: { degree ≤ most_degree },
    ghost tail_bound: { tail ≤ 2 ^ 32 },
    ghost small: { Small degree table.now },
}

impl<'a> Orders<'a> {
    ghost use Rattle.ranges.specs.Range.{tabulate};
    ghost use Rattle.model.specs.Step as rule;
    ghost use Rattle.model.specs.Rows.{laid_out, spans_laid_out};
    ghost use Rattle.model.specs.Sheet.{most_quantities};
    ghost use Rattle.products.specs.Table.{table_in};

    // Those of a table.
    pub fn of(table: &'a Table, degree: usize, tail: u64) -> Orders<'a>
        requires degree_le_most_degree { degree ≤ most_degree }
        requires tail_bound { tail ≤ 2 ^ 32 }
        requires small { Small degree table.now }
        ensures table { result.table.now ≡ table.now }
        ensures degree { result.degree ≡ degree }
        ensures tail { result.tail ≡ tail }
    {
        Orders {
            table,
            degree,
            tail,
        }
    }

    // The sums of c_0..c_degree and of e_0..e_degree of quantity i, and the tail.
    fn ball(self, i: usize) -> Ball
        requires { i < most_quantities }
        ensures { result ≡ rule.new_ball (table_in self.entry.degree self.entry.table.now) self.entry.degree self.entry.tail i }
    {
        let mut value = 0;
        let mut radius = self.tail;
        for k in 0..self.degree + 1 {
            let ball = self.table.ball(i, k);
            value += ball.value;
            radius += ball.radius;
        }
        Ball { value, radius }
    }

    // The values and radii of the new row of n quantities, with 0 past them.
    pub fn balls(self, n: usize) -> Balls
        requires { n ≤ most_quantities }
        ensures { result ≡ laid_out (tabulate n (rule.new_ball (table_in self.entry.degree self.entry.table.now) self.entry.degree self.entry.tail)) }
    {
        from_fn(|i| if i < n { self.ball(i) } else { NO_BALL })
    }

    // The low and the high of quantity i: c_0 less and plus e_0 + the sum over k = 1..degree of (|c_k| + e_k) + the tail.
    fn span(self, i: usize) -> Span
        requires { i < most_quantities }
        ensures { result ≡ rule.new_span (table_in self.entry.degree self.entry.table.now) self.entry.degree self.entry.tail i }
    {
        let start = self.table.ball(i, 0);
        let reach = start.radius + reach_of(&self.table.orders[i][1..self.degree + 1]) + self.tail;
        let extent = reach as i64;
        Span {
            low: start.value - extent,
            high: start.value + extent,
        }
    }

    // The lows and highs of n quantities, with 0 past them.
    pub fn spans(self, n: usize) -> Spans
        requires { n ≤ most_quantities }
        ensures { result ≡ spans_laid_out (tabulate n (rule.new_span (table_in self.entry.degree self.entry.table.now) self.entry.degree self.entry.tail)) }
    {
        from_fn(|i| if i < n { self.span(i) } else { NO_SPAN })
    }
}
