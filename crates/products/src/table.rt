// The table of coefficients of a step, order by order for each quantity.

ghost use Rattle.products.specs.Orders.{Whole, Covered};

use model::{Ball, MOST_DEGREE, MOST_QUANTITIES};

// The number of orders of one quantity: 0 to 28.
pub const ORDERS: usize = MOST_DEGREE + 1;

// A coefficient c, and |c| + e as its reach.
#[derive(Clone, Copy)]
pub struct Coefficient {
    pub value: i64,
    pub reach: u64,
}

// The coefficients of 8 quantities, each with its orders 0 to 28. No |c| is above its |c| + e.
#[derive(Clone, Copy)]
pub struct Table {
    pub orders: [[Coefficient; ORDERS]; MOST_QUANTITIES],
    pub ghost whole: { Whole orders },
    pub ghost covered: { Covered orders },
}

impl Table {
    ghost use Rattle.std.specs.Prelude.{◌≡◌, ℕ, ◌^◌, ◌<◌};
    ghost use Rattle.model.specs.Sheet.{most_quantities};
    ghost use Rattle.model.specs.Step as rule;
    ghost use Rattle.products.specs.Orders.{orders};
    ghost use Rattle.products.specs.Table.{ball_at, Written};

    // Nothing at any order.
    pub fn new() -> Table
        ensures { (order i : ℕ) → ball_at result order i ≡ rule.no_ball }
    {
        Table {
            orders: [[Coefficient { value: 0, reach: 0 }; ORDERS]; MOST_QUANTITIES],
        }
    }

    // c and e of order k of quantity i, counted from 0.
    pub fn ball(&self, i: usize, k: usize) -> Ball
        requires quantity { i < most_quantities }
        requires order { k < orders }
        ensures { result ≡ ball_at self.now k i }
    {
        let c = self.orders[i][k];
        Ball {
            value: c.value,
            radius: c.reach - c.value.unsigned_abs(),
        }
    }

    // The ball as c and e of order k of quantity i.
    pub fn set(&mut self, i: usize, k: usize, ball: Ball)
        requires quantity { i < most_quantities }
        requires order { k < orders }
        requires reach { rule.reach ball < 2 ^ 64 }
        ensures { Written k i ball self.old self.new }
    {
        self.orders[i][k] = Coefficient {
            value: ball.value,
            reach: ball.value.unsigned_abs() + ball.radius,
        };
    }
}
