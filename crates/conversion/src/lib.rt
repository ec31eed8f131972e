// Document 02, the conversion of stored sheets: a sheet of more steps than a passage may have comes out as two, the second of
// which starts from the last row of the first.
#![tactic(auto)]

ghost use Rattle.std.specs.Prelude.{ℕ, ◌≤◌, ◌<◌, List, ◌≡◌, length, take};
ghost use Rattle.model.specs.Sheet.{most_bytes, most_steps, stored_steps, passes, sheet_verdict_to};
ghost use Rattle.model.specs.Reading.{read_sheet_to};
ghost use Rattle.model.specs.Passage.{passage};
ghost use Rattle.model.specs.Rows.{balls_of, written};
ghost use Rattle.stored.specs.Conversion as model;
ghost use Rattle.answer.specs.Answered.{FrontOf};
ghost use Rattle.printing.specs.Pieces.{Put, Printed};
ghost use Rattle.stored.specs.Lent.{converted_lent, split_lent};
ghost use Rattle.enclosure.specs.Trust.{Leaves};
ghost use Rattle.conversion.specs.Converted.{ComesOutWith, ConvertsAlike};

use answer::{SHEET_LENGTH, front};
use decimal::put_front;
use model::{Balls, MOST_BYTES, MOST_STEPS, Refusal, Refused, STORED_STEPS, Sheet};
use passage::run;
use rows::{ROWS_LENGTH, Row};
use sheet::read;
use sheet_parts::{balls_of, first_part, second_part};
use sheet_text::put_sheet;
use taylor::small;
use text::put_outcome;

// Bytes for the text of every conversion. c/planner.h has the same, and the test command compares them.
pub const CONVERTED_LENGTH: usize = MOST_BYTES;

// The two sheets with an empty line between them, or refusal 6 where the second cannot start from these values and radii.
fn put_parts(text: &mut [u8], sheet: &Sheet, balls: &Balls) -> usize
    requires sheet_value { sheet_verdict_to stored_steps sheet.now ≡ passes }
    requires most_steps_lt_steps { most_steps < sheet.now.head.steps }
    ensures put { Put text.old 0 (model.parts_text most_steps sheet.now (balls_of sheet.now.head.n balls.now)) result text.new }
    ensures bounded { result ≤ most_bytes }
{
    if !small(&balls[..sheet.head.n]) {
        let step = MOST_STEPS + 1;
        let refusal = Refusal::TooLarge;
        return put_outcome(text, 0, Err(Refused { refusal, step }));
    }
    let first = put_sheet(text, 0, first_part(sheet));
    let parted = put_front(text, first, b"\n");
    put_sheet(text, parted, second_part(sheet, balls))
}

// A sheet of more steps than a passage may have: runs its first part into `rows`, and prints the two parts or the refusal.
fn split(sheet: &Sheet, rows: &mut [i64], text: &mut [u8]) -> usize
    requires sheet_value { sheet_verdict_to stored_steps sheet.now ≡ passes }
    requires most_steps_lt_steps { most_steps < sheet.now.head.steps }
    ensures put { Put text.old 0 (model.split_text most_steps sheet.now (passage (model.first_part most_steps sheet.now) (length rows.old))) result text.new }
    ensures written { rows.new ≡ written (passage (model.first_part most_steps sheet.now) (length rows.old)).rows rows.old }
    ensures bounded { result ≤ most_bytes }
{
    let outcome = run(&first_part(sheet), rows);
    if let Err(_) = outcome {
        return put_outcome(text, 0, outcome);
    }
    let last = Row::at(rows, sheet.head.n, MOST_STEPS - 1);
    put_parts(text, sheet, &balls_of(last))
}

// Converts a stored sheet into `text`: as it is where it has no more steps than a passage may have, and otherwise in two parts,
// by way of the rows of the first. Gives the length of the whole, of which `text` holds as much as fits.
pub fn planner_convert(sheet: &[u8], rows: &mut [i64], text: &mut [u8]) -> usize
    ensures printed { Printed text.old (converted_lent sheet.now (length rows.old)) result text.new }
    ensures bounded { result ≤ most_bytes }
    ensures leaves { Leaves (model.first_part most_steps (read_sheet_to stored_steps sheet.now).sheet) (split_lent sheet.now (length rows.old)) rows.old rows.new }
    ensures comes_out { ComesOutWith (length rows.old) sheet.now }
{
    let reading = read(sheet, STORED_STEPS as u32);
    if let Err(_) = reading.outcome {
        return put_outcome(text, 0, reading.outcome);
    }
    if reading.sheet.head.steps <= MOST_STEPS {
        return put_front(text, 0, sheet);
    }
    split(&reading.sheet, rows, text)
}

// Converts a stored sheet into `text`, by way of rows of its own, which suffice for every sheet. The text has room for the
// longest conversion, and no more.
fn convert_sheet(sheet: &[u8], text: &mut [u8]) -> usize
    requires { length text.old ≡ most_bytes }
    ensures printed { Printed text.old (model.converted sheet.now) result text.new }
    ensures bounded { result ≤ most_bytes }
{
    let mut rows = [0i64; ROWS_LENGTH];
    planner_convert(sheet, &mut rows, text)
}

// Prints what an input of any length comes out as, of which the first `count` bytes of `sheet` were read: all that it has, or
// as many as there is room for. The text has room for every conversion.
pub fn convert_input(
    sheet: &[u8; SHEET_LENGTH],
    count: usize,
    text: &mut [u8; CONVERTED_LENGTH],
) -> usize
    ensures printed { Printed text.old (model.converted (take count sheet.now)) result text.new }
    ensures whole { result ≤ length text.new }
    ensures comes_out { model.ComesOutAs (take count sheet.now) (model.converted (take count sheet.now)) }
    ensures of_input { (input : List ℕ) → FrontOf (length sheet.now) input (take count sheet.now) → ConvertsAlike input (take count sheet.now) }
{
    convert_sheet(front(sheet, count), text)
}
