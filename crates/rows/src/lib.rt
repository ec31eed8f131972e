// Rows in a lent buffer: nothing else in the code knows where a row's numbers stand. Rows and quantities are counted from 0.
#![tactic(auto)]

ghost use Rattle.std.specs.Prelude.{◌≡◌, ◌≤◌, ◌+◌, length};
ghost use Rattle.std.proofs.lemmas.List.Edits.{sets};
ghost use Rattle.model.specs.Sheet.{most_quantities};
ghost use Rattle.model.specs.Rows as layout;
ghost use Rattle.rows.specs.Room.{part_number, HasPlace, Storable};

use model::{Balls, MOST_QUANTITIES, MOST_STEPS, Spans};

mod view;

pub use view::{Part, Row, Rows};

// How many parts stand behind a row's degree, each of n places.
const PARTS: usize = 4;

// Places for the most steps of the most quantities.
pub const ROWS_LENGTH: usize = MOST_STEPS * (PARTS * MOST_QUANTITIES + 1);

// How many places a row of n quantities takes.
#[tactic(auto, unfolding(model::specs::Rows::width))]
pub fn width(n: usize) -> usize
    requires { n ≤ most_quantities }
    ensures { result ≡ layout.width n }
{
    PARTS * n + 1
}

// The place of quantity i in a part of a row.
pub fn part_place(n: usize, row: usize, part: Part, i: usize) -> usize
    requires { HasPlace n row i }
    ensures { result ≡ layout.part_place n row (part_number part) i }
{
    row * width(n) + 1 + part.number() * n + i
}

// Puts the numbers of a part from place `at` on.
fn put_part(rows: &mut [i64], at: usize, numbers: &[i64])
    requires { at + length numbers.now ≤ length rows.old }
    ensures { rows.new ≡ sets rows.old at numbers.now }
{
    rows[at..at + numbers.len()].copy_from_slice(numbers);
}

// Puts a row: its degree, n values, n radii, n lows and n highs. (Each of the n radii has 63 bits. Those past them are not put.)
pub fn put_row(rows: &mut [i64], n: usize, row: usize, degree: usize, balls: &Balls, spans: &Spans)
    requires { Storable n row degree balls.now rows.old }
    ensures { rows.new ≡ sets rows.old (layout.degree_place n row) (layout.row_places (record { degree = degree; balls = layout.balls_of n balls.now; spans = layout.spans_of n spans.now })) }
{
    let values = balls.map(|ball| ball.value);
    let radii = balls.map(|ball| ball.radius.cast_signed());
    let lows = spans.map(|span| span.low);
    let highs = spans.map(|span| span.high);
    rows[row * width(n)] = degree as i64;
    put_part(rows, part_place(n, row, Part::Values, 0), &values[..n]);
    put_part(rows, part_place(n, row, Part::Radii, 0), &radii[..n]);
    put_part(rows, part_place(n, row, Part::Lows, 0), &lows[..n]);
    put_part(rows, part_place(n, row, Part::Highs, 0), &highs[..n]);
}
