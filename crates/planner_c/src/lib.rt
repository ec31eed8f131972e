// Every function for C, one export for each, with the clauses of the library's function of its name. c/planner.h declares them.
#![tactic(auto)]

ghost use Rattle.std.specs.Prelude.{◌≡◌, ◌≤◌, length};
ghost use Rattle.model.specs.Sheet.{most_bytes, most_steps, stored_steps};
ghost use Rattle.model.specs.Reading.{read_sheet, read_sheet_to};
ghost use Rattle.model.specs.Answer.{run_text};
ghost use Rattle.enclosure.specs.Trust.{Leaves};
ghost use Rattle.printing.specs.Pieces.{Printed};
ghost use Rattle.printing.specs.AnswerLength.{most_answer};
ghost use Rattle.answer.specs.Answered.{run_lent, ended_of, summary_of};
ghost use Rattle.clear_rule.specs.Claim.{SaidBy};
ghost use Rattle.clear_rule.specs.Clearance as clearance;
ghost use Rattle.stored.specs.Conversion as stored;
ghost use Rattle.stored.specs.Lent.{converted_lent, split_lent};
ghost use Rattle.conversion.specs.Converted.{ComesOutWith};

use answer::SUMMARY_LENGTH;
use model::MOST_QUANTITIES;

// The answer to a sheet, as text.
#[unsafe(no_mangle)]
pub extern "C" fn planner_answer(sheet: &[u8], rows: &mut [i64], text: &mut [u8]) -> usize
    ensures printed { Printed text.old (run_text (run_lent sheet.now (length rows.old))) result text.new }
    ensures bounded { result ≤ most_answer }
    ensures leaves { Leaves (read_sheet sheet.now).sheet (run_lent sheet.now (length rows.old)) rows.old rows.new }
{
    answer::planner_answer(sheet, rows, text)
}

// The same as numbers: the rows, and a summary of what came of it.
#[unsafe(no_mangle)]
pub extern "C" fn planner_run(sheet: &[u8], rows: &mut [i64], summary: &mut [u64; SUMMARY_LENGTH])
    ensures summarised { summary.new ≡ summary_of (ended_of sheet.now (length rows.old)) }
    ensures leaves { Leaves (read_sheet sheet.now).sheet (run_lent sheet.now (length rows.old)) rows.old rows.new }
{
    answer::planner_run(sheet, rows, summary)
}

// The first of so many rows in a row with water enough for certain, or 0, or a refusal's number with a minus.
#[unsafe(no_mangle)]
pub extern "C" fn planner_first_clear(
    n: usize,
    count: usize,
    rows: &[i64],
    weights: &[i64; MOST_QUANTITIES],
    base: i64,
    need: i64,
    run: usize,
) -> i64
    ensures found { result ≡ clearance.found_number (clearance.first_clear n count rows.now (record { weights = weights.now; base = base; need = need; run = run })) }
    ensures said { SaidBy n count rows.now (record { weights = weights.now; base = base; need = need; run = run }) result }
{
    clearance::planner_first_clear(n, count, rows, weights, base, need, run)
}

// Sheets of up to 240 steps from a stored sheet of up to 400.
#[unsafe(no_mangle)]
pub extern "C" fn planner_convert(sheet: &[u8], rows: &mut [i64], text: &mut [u8]) -> usize
    ensures printed { Printed text.old (converted_lent sheet.now (length rows.old)) result text.new }
    ensures bounded { result ≤ most_bytes }
    ensures leaves { Leaves (stored.first_part most_steps (read_sheet_to stored_steps sheet.now).sheet) (split_lent sheet.now (length rows.old)) rows.old rows.new }
    ensures comes_out { ComesOutWith (length rows.old) sheet.now }
{
    conversion::planner_convert(sheet, rows, text)
}
