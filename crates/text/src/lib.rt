// Document 01, 'A sheet and its answer': the answer's text, put into a lent buffer from a buffer of rows.
//
// A row's lines are put into a buffer of their own, which has room for the longest, and from there as much of them as fits
// into the text. What puts into the text hands back the place that follows what it put, as `put_front` does.
#![tactic(auto)]

ghost use Rattle.std.specs.Prelude.{suc, ◌+◌, ◌*◌, ◌^◌, ◌≤◌, ◌<◌, [], ◌∷◌, ◌++◌, ◌≡◌, pos, nat_abs, length};
ghost use Rattle.model.specs.Sheet.{most, most_steps, refused_step};
ghost use Rattle.enclosure.specs.RowRange.{most_value, most_span, Printable, RowsPrintable};
ghost use Rattle.model.specs.Rows.{rows_in};
ghost use Rattle.model.specs.Answer as answer;
ghost use Rattle.rows.specs.View.{buffer_of, row_of};
ghost use Rattle.printing.specs.Pieces.{Put, Printed};
ghost use Rattle.printing.specs.AnswerLength.{value_digits, most_ball, most_span_lines, most_quantity, most_row};

use decimal::{ENDS, Lines, put_front};
use model::{Ball, MOST_QUANTITIES, MOST_STEPS, Outcome, Span, refused_step, result};
use rows::{Row, Rows};

// The most bytes of a value and a radius: value=-1610612736, radius=536870912.
const MOST_BALL: usize = 5 + 11 + ENDS + 6 + 9 + ENDS;

// Of a low and a high: low=-2147483648, high=-2147483648.
const MOST_SPAN: usize = 3 + 11 + ENDS + 4 + 11 + ENDS;

// Of a row's number, its degree and the most quantities: row=240, degree=28.
const MOST_ROW: usize = 3 + 3 + ENDS + 6 + 2 + ENDS + MOST_QUANTITIES * (MOST_BALL + MOST_SPAN);

// Of a result and the refused step: result=10, at=240.
const MOST_OUTCOME: usize = 6 + 2 + ENDS + 2 + 3 + ENDS;

// Of a row that another one follows. Question 4 has let it pass, so each of its values has a digit less.
const MOST_EARLIER_ROW: usize = MOST_ROW - MOST_QUANTITIES;

// Bytes for the text of every answer: the most rows, and the outcome.
pub const TEXT_LENGTH: usize = (MOST_STEPS - 1) * MOST_EARLIER_ROW + MOST_ROW + MOST_OUTCOME;

// The lines of a row.
type RowLines = Lines<MOST_ROW>;

// A value's line and a radius's.
fn put_ball(lines: &mut RowLines, ball: Ball)
    requires value_bound { nat_abs ball.value ≤ most_value }
    requires radius_le_most { ball.radius ≤ most }
    requires value_digits_in_bounds { length lines.old + most_ball value_digits ≤ MOST_ROW }
    ensures put { lines.new ≡ lines.old ++ (answer.printed "value" ball.value ++ answer.printed "radius" (pos ball.radius)) }
    ensures bounded { length lines.new ≤ length lines.old + most_ball value_digits }
{
    lines.line(b"value=", ball.value);
    lines.line(b"radius=", ball.radius as i64);
}

// A low's line and a high's.
fn put_span(lines: &mut RowLines, span: Span)
    requires low_bound { nat_abs span.low ≤ most_span }
    requires high_bound { nat_abs span.high ≤ most_span }
    requires most_span_lines_in_bounds { length lines.old + most_span_lines ≤ MOST_ROW }
    ensures put { lines.new ≡ lines.old ++ (answer.printed "low" span.low ++ answer.printed "high" span.high) }
    ensures bounded { length lines.new ≤ length lines.old + most_span_lines }
{
    lines.line(b"low=", span.low);
    lines.line(b"high=", span.high);
}

// The lines of each quantity of a row.
fn put_quantities(lines: &mut RowLines, row: Row)
    requires printable { Printable (row_of row) }
    requires value_digits_in_bounds { length lines.old + row.n * most_quantity value_digits ≤ MOST_ROW }
    ensures put { lines.new ≡ lines.old ++ answer.quantities_text (row_of row.entry).balls (row_of row.entry).spans }
    ensures bounded { length lines.new ≤ length lines.old + row.entry.n * most_quantity value_digits }
{
    for i in 0..row.quantities() {
        put_ball(lines, row.ball(i));
        put_span(lines, row.span(i));
    }
}

// A row's lines. In the text the rows are counted from 1.
fn put_row(lines: &mut RowLines, number: usize, row: Row)
    requires printable { Printable (row_of row) }
    requires number_le_most_steps { number ≤ most_steps }
    requires n_in_bounds { length lines.old + most_row value_digits row.n ≤ MOST_ROW }
    ensures put { lines.new ≡ lines.old ++ answer.rows_text number (row_of row.entry ∷ []) }
    ensures bounded { length lines.new ≤ length lines.old + most_row value_digits row.entry.n }
{
    lines.line(b"row=", number as i64);
    lines.line(b"degree=", row.degree() as i64);
    put_quantities(lines, row);
}

// The lines of the first `count` rows.
fn put_rows(text: &mut [u8], rows: Rows) -> usize
    requires rows_printable { RowsPrintable rows.n rows.count (buffer_of rows) }
    requires count_le_most_steps { rows.count ≤ most_steps }
    ensures put { Put text.old 0 (answer.rows_text 1 (rows_in rows.entry.n rows.entry.count (buffer_of rows.entry))) result text.new }
    ensures bounded { result ≤ rows.entry.count * most_row value_digits rows.entry.n }
{
    let mut lines = RowLines::new();
    let mut next = 0;
    for row in 0..rows.count {
        lines.clear();
        put_row(&mut lines, row + 1, rows.row(row));
        next = put_front(text, next, lines.as_slice());
    }
    next
}

// The last two lines. The refused step may be the one after the most, as where a passage is taken in two parts.
pub fn put_outcome(text: &mut [u8], at: usize, outcome: Outcome) -> usize
    requires outcome_bound { refused_step outcome ≤ suc most_steps }
    requires at_bound { at < 2 ^ 32 }
    ensures { Put text.old at (answer.outcome_text outcome) result text.new }
{
    let number = result(outcome);
    let step = refused_step(outcome);
    let mut lines: Lines<MOST_OUTCOME> = Lines::new();
    lines.line(b"result=", number as i64);
    lines.line(b"at=", step as i64);
    put_front(text, at, lines.as_slice())
}

// The whole answer of a passage: the first `count` rows of the buffer, and what came of it, with no number that is longer
// than a passage's are. The result is the answer's length, which may be more than the text's.
pub fn put_run(text: &mut [u8], rows: Rows, outcome: Outcome) -> usize
    requires rows_printable { RowsPrintable rows.n rows.count (buffer_of rows) }
    requires count_le_most_steps { rows.count ≤ most_steps }
    requires outcome_bound { refused_step outcome ≤ most_steps }
    ensures { Printed text.old (answer.run_text (record { rows = rows_in rows.entry.n rows.entry.count (buffer_of rows.entry); outcome = outcome })) result text.new }
{
    let end = put_rows(text, rows);
    put_outcome(text, end, outcome)
}
