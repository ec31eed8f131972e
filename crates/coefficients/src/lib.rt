// Document 01, 'Coefficients': the orders of a step, each from those below it, in the table of coefficients that `products` reads.
#![tactic(auto)]

ghost use Rattle.std.specs.Prelude.{◌≡◌, ℕ, suc, ◌^◌, ◌≤◌, ◌<◌, length, get_or};
ghost use Rattle.model.specs.Sheet.{most_quantities, most};
ghost use Rattle.model.specs.Step.{most_degree, no_ball};
ghost use Rattle.model.specs.Step as rule;
ghost use Rattle.products.specs.Table.{table_in, Written};
ghost use Rattle.coefficients.specs.Orders.{start_in, closed, Closed, Usable, Fillable, Filled, CanSum, sums_to};

use model::{Ball, Balls, MOST_QUANTITIES, NO_BALL, Term};
use products::{Table, share};
use rounding::{near, up_and_one};

// Order 0: the balls that the step starts from. The other orders stay as they are.
pub fn start_orders(table: &mut Table, start: &[Ball])
    requires few { length start.now ≤ most_quantities }
    requires by_index { (i : ℕ) → i < length start.now → rule.reach (get_or start.now i no_ball) ≤ most }
    requires usable_before { Usable (length start.now) table.old }
    ensures usable { Usable (length start.now) table.new }
    ensures started { start_in (length start.now) table.new ≡ start.now }
{
    for (i, ball) in start.iter().enumerate() {
        table.set(i, 0, *ball);
    }
}

// The sums of v and g of every quantity at order k, over all terms.
fn sums_over(table: &Table, step: i64, k: usize, terms: &[Term]) -> Balls
    requires { CanSum terms.now step k table.now }
    ensures { (i : ℕ) → i < most_quantities → get_or result i no_ball ≡ sums_to terms.now step (table_in k table.now) k (length terms.now) i }
{
    let mut sums = [NO_BALL; MOST_QUANTITIES];
    for term in terms {
        let brought = share(table, step, k, *term);
        let sum = &mut sums[term.to - 1];
        sum.value += brought.value;
        sum.radius += brought.radius;
    }
    sums
}

// Order k + 1 of quantity i, from its sums of v and g: near(sum of v, k + 1), and up(sum of g, k + 1) + 1.
fn close_coefficient(table: &mut Table, i: usize, k: usize, sums: Ball)
    requires quantity { i < most_quantities }
    requires order { k < most_degree }
    requires fits { rule.reach sums < 2 ^ 62 }
    ensures { Written (suc k) i (closed k sums) table.old table.new }
{
    let order = k as u64 + 1;
    let next = Ball {
        value: near(sums.value, order),
        radius: up_and_one(sums.radius, order),
    };
    table.set(i, k + 1, next);
}

// Order k + 1 of every quantity, from the sums of v and g of each.
fn close_order(table: &mut Table, k: usize, sums: &[Ball])
    requires few { length sums.now ≤ most_quantities }
    requires order { k < most_degree }
    requires by_index { (i : ℕ) → i < length sums.now → rule.reach (get_or sums.now i no_ball) < 2 ^ 62 }
    ensures { Closed (λ i. get_or sums.now i no_ball) k (length sums.now) table.old table.new }
{
    for (i, sum) in sums.iter().enumerate() {
        close_coefficient(table, i, k, *sum);
    }
}

// Orders 1 .. degree, from order 0: each from the sums of v and g over all terms.
pub fn fill_orders(table: &mut Table, n: usize, step: i64, degree: usize, terms: &[Term])
    requires fillable { Fillable terms.now step n table.old }
    requires degree_le_most_degree { degree ≤ most_degree }
    ensures start { start_in n table.new ≡ start_in n table.old }
    ensures filled { Filled terms.now step n degree table.new }
{
    for k in 0..degree {
        let sums = sums_over(table, step, k, terms);
        close_order(table, k, &sums[..n]);
    }
}
