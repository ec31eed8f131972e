// Document 01, 'Coefficients': v and g, what a term brings to its target at one order of a step, from the orders up to it.
//
// A table of coefficients keeps c and |c| + e: the radius of a product is then |c|+e times |c'|+e' less |c×c'|, two products
// in place of four.
#![tactic(auto)]

ghost use Rattle.std.specs.Prelude.{◌≡◌, ◌+◌, ◌-◌, ◌*◌, ◌^◌, ◌≤◌, ◌<◌, nat_abs, ◌+ℤ◌, ◌*ℤ◌};
ghost use Rattle.rounding.specs.Rounding as round;
ghost use Rattle.model.specs.Sheet.{scale, most_quantities};
ghost use Rattle.model.specs.Step as rule;
ghost use Rattle.products.specs.Table.{table_in, AtOrder, Reached, IsQuantity, Factors, ShareFits};

mod table;

use model::{Ball, NO_BALL, SCALE, Term};
use rounding::{near, product, up_and_one};
pub use table::{Coefficient, ORDERS, Table};

// c × c' of two numbers that fit in 32 bits with their signs: said so, the compiler can form two such products at a time.
fn signed_product(c: i64, other: i64) -> i64
    requires c_bound { nat_abs c < 2 ^ 31 }
    requires other_bound { nat_abs other < 2 ^ 31 }
    ensures { result ≡ c *ℤ other }
{
    let short = c as i32;
    let other_short = other as i32;
    short as i64 * other_short as i64
}

// S and F with the product of two coefficients more: S + near(c×c', s) and F + up(|c|×e' + |c'|×e + e×e', s) + 1.
fn with_product(sum: Ball, c: Coefficient, other: Coefficient) -> Ball
    requires coefficient_reached { Reached c }
    requires other_reached { Reached other }
    requires sum_bound { rule.reach sum ≤ 2 ^ 40 }
    ensures value { result.value ≡ sum.value +ℤ round.near (c.value *ℤ other.value) scale }
    ensures radius { result.radius ≡ sum.radius + (round.up (c.reach * other.reach - nat_abs (c.value *ℤ other.value)) scale + 1) }
{
    let signed = signed_product(c.value, other.value);
    let error = product(c.reach, other.reach) - signed.unsigned_abs();
    Ball {
        value: sum.value + near(signed, SCALE),
        radius: sum.radius + up_and_one(error, SCALE),
    }
}

// S and F of two factors at order k: the sums over l = 0..k of near(c_l×c'_(k-l), s) and of
// up(|c_l|×e'_(k-l) + |c'_(k-l)|×e_l + e_l×e'_(k-l), s) + 1.
fn convolution(table: &Table, k: usize, first: usize, second: usize) -> Ball
    requires at_order { AtOrder k table.now }
    requires first_quantity { IsQuantity first }
    requires second_quantity { IsQuantity second }
    ensures { result ≡ rule.products (table_in k table.now) k first second }
{
    let orders = &table.orders[first - 1];
    let others = &table.orders[second - 1];
    let mut sum = NO_BALL;
    for l in 0..k + 1 {
        sum = with_product(sum, orders[l], others[k - l]);
    }
    sum
}

// c_k and e_k of a factor: an absent one is s at order 0 and 0 after.
fn factor(table: &Table, k: usize, number: usize) -> Ball
    requires at_order { AtOrder k table.now }
    requires number_le_most_quantities { number ≤ most_quantities }
    ensures { result ≡ rule.factor (table_in k table.now) k number }
{
    if number > 0 {
        return table.ball(number - 1, k);
    }
    if k == 0 {
        Ball {
            value: SCALE as i64,
            radius: 0,
        }
    } else {
        NO_BALL
    }
}

// S and F of a term's factors at order k.
fn products(table: &Table, k: usize, first: usize, second: usize) -> Ball
    requires at_order { AtOrder k table.now }
    requires factors { Factors first second }
    ensures { result ≡ rule.products (table_in k table.now) k first second }
{
    if second == 0 {
        factor(table, k, first)
    } else {
        convolution(table, k, first, second)
    }
}

// A ball times a number of units: near(a × value, s) and up(|a| × radius, s) + 1.
fn times(a: i64, ball: Ball) -> Ball
    requires { nat_abs a * rule.reach ball < 2 ^ 63 }
    ensures { result ≡ rule.times a ball }
{
    Ball {
        value: near(a * ball.value, SCALE),
        radius: up_and_one(a.unsigned_abs() * ball.radius, SCALE),
    }
}

// v and g of a term at order k: A times Q and f, which are H times S and F: Q with H's sign, f by |H|.
pub fn share(table: &Table, step: i64, k: usize, term: Term) -> Ball
    requires { ShareFits step k term table.now }
    ensures { result ≡ rule.share step (table_in k table.now) k term }
{
    let sums = products(table, k, term.first, term.second);
    times(term.coef, times(step, sums))
}
