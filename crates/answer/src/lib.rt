// The answer to a sheet: from its bytes, by way of buffers for the rows and the text, to the text's bytes.
#![tactic(auto)]

ghost use Rattle.std.specs.Prelude.{◌≡◌, List, ℕ, ◌≤◌, length, take};
ghost use Rattle.model.specs.Reading.{read_sheet};
ghost use Rattle.model.specs.Answer.{run_of, answer, run_text};
ghost use Rattle.enclosure.specs.Trust.{TrustedOf, SpannedOf, Leaves};
ghost use Rattle.printing.specs.Pieces.{Printed};
ghost use Rattle.printing.specs.AnswerLength.{most_answer};
ghost use Rattle.answer.specs.Answered.{run_lent, ended_of, Ran, summary_length, summary_of, FrontOf, AnswersAlike};

use model::{MOST_BYTES, MOST_STEPS, Outcome, refused_step, result};
use passage::{rows_written, run};
use rows::Rows;
use sheet::read;
use text::put_run;

// Sizes that suffice for every sheet. c/planner.h has the same, and the test command compares them.

// Bytes to read a sheet into: one more than a sheet may have, so that a longer one is seen to be too long.
pub const SHEET_LENGTH: usize = MOST_BYTES + 1;

// Places for the rows, and bytes for the answer's text.
pub use rows::ROWS_LENGTH;
pub use text::TEXT_LENGTH;

// The numbers of a summary.
pub const SUMMARY_LENGTH: usize = 4;

// What came of a sheet: its quantities, 0 where it was not read; the rows written; the outcome. Stays: the clause `summarised` of
// `planner_run` tells all of them of a refused sheet too.
#[derive(Clone, Copy)]
pub struct Ended {
    pub n: usize,
    pub count: usize,
    pub outcome: Outcome,
}

// Reads a sheet and runs its passage into `rows`.
fn run_sheet(sheet: &[u8], rows: &mut [i64]) -> Ended
    ensures { Ran sheet.now rows.old rows.new result }
{
    let reading = read(sheet, MOST_STEPS as u32);
    let n = reading.sheet.head.n;
    if let Err(_) = reading.outcome {
        return Ended {
            n,
            count: 0,
            outcome: reading.outcome,
        };
    }
    let outcome = run(&reading.sheet, rows);
    Ended {
        n,
        count: rows_written(&reading.sheet, outcome),
        outcome,
    }
}

// Reads a sheet, runs its passage into `rows` and prints the answer into `text`. Gives the length of the whole answer, of
// which `text` holds as much as fits.
pub fn planner_answer(sheet: &[u8], rows: &mut [i64], text: &mut [u8]) -> usize
    ensures printed { Printed text.old (run_text (run_lent sheet.now (length rows.old))) result text.new }
    ensures bounded { result ≤ most_answer }
    ensures leaves { Leaves (read_sheet sheet.now).sheet (run_lent sheet.now (length rows.old)) rows.old rows.new }
{
    let ended = run_sheet(sheet, rows);
    put_run(text, Rows::of(rows, ended.n, ended.count), ended.outcome)
}

// The result, the refused step, the sheet's quantities and the rows written.
fn put_summary(summary: &mut [u64], ended: Ended)
    requires { length summary.old ≡ summary_length }
    ensures { summary.new ≡ summary_of ended }
{
    summary[0] = result(ended.outcome);
    summary[1] = refused_step(ended.outcome);
    summary[2] = ended.n as u64;
    summary[3] = ended.count as u64;
}

// Reads a sheet and runs its passage into `rows`, without a text. `summary` is then the result, the refused step, the
// sheet's quantities and the rows written.
pub fn planner_run(sheet: &[u8], rows: &mut [i64], summary: &mut [u64; SUMMARY_LENGTH])
    ensures summarised { summary.new ≡ summary_of (ended_of sheet.now (length rows.old)) }
    ensures leaves { Leaves (read_sheet sheet.now).sheet (run_lent sheet.now (length rows.old)) rows.old rows.new }
{
    let ended = run_sheet(sheet, rows);
    put_summary(summary, ended);
}

// Reads a sheet and prints its answer into `text`, by way of rows of its own, which suffice for every sheet. The text has
// room for the longest answer, and no more. Gives the length of the answer.
fn answer_sheet(sheet: &[u8], text: &mut [u8]) -> usize
    requires { length text.old ≡ most_answer }
    ensures printed { Printed text.old (answer sheet.now) result text.new }
    ensures bounded { result ≤ most_answer }
{
    let mut rows = [0i64; ROWS_LENGTH];
    planner_answer(sheet, &mut rows, text)
}

// The first `count` bytes, or all where there are no more.
pub fn front(bytes: &[u8], count: usize) -> &[u8]
    ensures { result.now ≡ take count bytes.now }
{
    &bytes[..count.min(bytes.len())]
}

// Prints the answer to an input of any length, of which the first `count` bytes of `sheet` were read: all that it has, or
// as many as there is room for. The text has room for every answer. Stays beside
// `convert_input`: what the two promise is said by other definitions.
pub fn answer_input(sheet: &[u8; SHEET_LENGTH], count: usize, text: &mut [u8; TEXT_LENGTH]) -> usize
    ensures printed { Printed text.old (answer (take count sheet.now)) result text.new }
    ensures whole { result ≤ length text.new }
    ensures trusted { TrustedOf (read_sheet (take count sheet.now)).sheet (run_of (take count sheet.now)).rows }
    ensures spanned { SpannedOf (read_sheet (take count sheet.now)).sheet (run_of (take count sheet.now)).rows }
    ensures of_input { (input : List ℕ) → FrontOf (length sheet.now) input (take count sheet.now) → AnswersAlike input (take count sheet.now) }
{
    answer_sheet(front(sheet, count), text)
}
