// Document 02, the conversion of stored sheets: the two parts of a sheet of more steps than a passage may have, as numbers.
#![tactic(auto)]

ghost use Rattle.std.specs.Prelude.{◌≤◌, ◌<◌, map, length, ◌≡◌};
ghost use Rattle.model.specs.Sheet.{most_quantities, most_steps, quantities_held};
ghost use Rattle.model.specs.Rows.{balls_of, laid_out};
ghost use Rattle.stored.specs.Conversion as model;
ghost use Rattle.rows.specs.View.{row_of};

use model::{
    Ball, Balls, Head, MOST_QUANTITIES, MOST_STEPS, NO_BALL, NO_QUANTITY, Quantity, Sheet,
};
use rows::Row;

// The first steps of a sheet, as many as a passage may have.
#[tactic(auto, unfolding(stored::specs::Conversion::first_part, stored::specs::Conversion::with_steps))]
pub fn first_part(sheet: &Sheet) -> Sheet
    ensures { result ≡ model.first_part most_steps sheet.now }
{
    Sheet {
        head: Head {
            steps: MOST_STEPS,
            ..sheet.head
        },
        ..*sheet
    }
}

// The values and radii of a row, with 0 past them. Stays: as `starts_of` of `passage`.
pub fn balls_of(row: Row) -> Balls
    ensures { result ≡ laid_out (row_of row.entry).balls }
{
    let mut balls = [NO_BALL; MOST_QUANTITIES];
    for i in 0..row.n {
        balls[i] = row.ball(i);
    }
    balls
}

// Quantities that start from values and radii.
fn starting_from(balls: &[Ball]) -> [Quantity; MOST_QUANTITIES]
    requires { length balls.now ≤ most_quantities }
    ensures { result ≡ quantities_held (map model.starting_from balls.now) }
{
    let mut quantities = [NO_QUANTITY; MOST_QUANTITIES];
    for (i, ball) in balls.iter().enumerate() {
        quantities[i] = Quantity {
            start: Some(ball.value),
            radius: ball.radius,
        };
    }
    quantities
}

// The steps that are left, from these values and radii.
pub fn second_part(sheet: &Sheet, balls: &Balls) -> Sheet
    requires n_le_most_quantities { sheet.now.head.n ≤ most_quantities }
    requires most_steps_lt_steps { most_steps < sheet.now.head.steps }
    ensures { result ≡ model.second_part most_steps sheet.now (balls_of sheet.now.head.n balls.now) }
{
    Sheet {
        head: Head {
            steps: sheet.head.steps - MOST_STEPS,
            ..sheet.head
        },
        quantities: starting_from(&balls[..sheet.head.n]),
        ..*sheet
    }
}
