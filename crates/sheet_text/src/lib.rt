// Document 02, the conversion of stored sheets: a sheet's text, put into a lent buffer.
//
// The lines are put into a buffer of their own, which has room for the longest sheet, and from there as much of them as fits
// into the text.
#![tactic(auto)]

ghost use Rattle.std.specs.Prelude.{ℕ, ◌+◌, ◌*◌, ◌^◌, ◌≤◌, ◌<◌, ◌++◌, ◌≡◌, length, get_or};
ghost use mathlib.Core.List.{flatten};
ghost use Rattle.ranges.specs.Range.{tabulate};
ghost use Rattle.model.specs.Sheet.{stored_steps, passes, head_verdict, start_verdict, quantity_verdict, quantities_verdict, sheet_verdict_to, no_quantity, no_term};
ghost use Rattle.stored.specs.Conversion as conversion;
ghost use Rattle.printing.specs.Pieces.{Put};
ghost use Rattle.printing.specs.SheetLength.{most_head, most_start, most_quantity, most_term, most_sheet, TermShort};

use decimal::{ENDS, Lines, put_front};
use model::{Head, MOST_QUANTITIES, MOST_TERMS, Quantity, Sheet, Term};

// The byte of a sign.
const SIGN: usize = 1;

// The most bytes of the lines of the counts: n=8, steps=400.
const MOST_COUNTS: usize = 1 + 1 + ENDS + 5 + 3 + ENDS;

// Of all lines above the quantities: the counts, step=-16777216, tail=16777216, tol=536870912.
const MOST_HEAD: usize = MOST_COUNTS + 4 + SIGN + 8 + ENDS + 4 + 8 + ENDS + 3 + 9 + ENDS;

// Of a quantity: start=-536870912, radius=536870912.
const MOST_QUANTITY: usize = 5 + SIGN + 9 + ENDS + 6 + 9 + ENDS;

// Of how many terms there are: terms=32.
const MOST_COUNT: usize = 5 + 2 + ENDS;

// Of a term: to=8, coef=-268435456, first=8, second=8.
const MOST_TERM: usize = 2 + 1 + ENDS + 4 + SIGN + 9 + ENDS + 5 + 1 + ENDS + 6 + 1 + ENDS;

// Bytes for the text of every sheet.
pub const SHEET_TEXT_LENGTH: usize = MOST_HEAD
    + MOST_QUANTITIES * MOST_QUANTITY
    + MOST_COUNT
    + MOST_TERMS * MOST_TERM;

// The lines of a sheet.
type SheetLines = Lines<SHEET_TEXT_LENGTH>;

// The lines above the quantities.
fn put_head(lines: &mut SheetLines, head: Head)
    requires head_value { head_verdict stored_steps head ≡ passes }
    requires most_head_in_bounds { length lines.old + most_head ≤ SHEET_TEXT_LENGTH }
    ensures put { lines.new ≡ lines.old ++ conversion.head_text head }
    ensures bounded { length lines.new ≤ length lines.old + most_head }
{
    lines.line(b"n=", head.n as i64);
    lines.line(b"steps=", head.steps as i64);
    lines.line(b"step=", head.step);
    lines.line(b"tail=", head.tail as i64);
    lines.line(b"tol=", head.tol as i64);
}

// A start.
fn put_start(lines: &mut SheetLines, start: Option<i64>)
    requires start_value { start_verdict start ≡ passes }
    requires most_start_in_bounds { length lines.old + most_start ≤ SHEET_TEXT_LENGTH }
    ensures put { lines.new ≡ lines.old ++ conversion.start_text start }
    ensures bounded { length lines.new ≤ length lines.old + most_start }
{
    match start {
        Some(value) => lines.line(b"start=", value),
        None => lines.bytes(b"start=none\n"),
    }
}

// A start and its radius.
fn put_quantity(lines: &mut SheetLines, quantity: Quantity)
    requires quantity_value { quantity_verdict quantity ≡ passes }
    requires most_quantity_in_bounds { length lines.old + most_quantity ≤ SHEET_TEXT_LENGTH }
    ensures put { lines.new ≡ lines.old ++ conversion.quantity_text quantity }
    ensures bounded { length lines.new ≤ length lines.old + most_quantity }
{
    put_start(lines, quantity.start);
    lines.line(b"radius=", quantity.radius as i64);
}

// The lines of the quantities.
fn put_quantities(lines: &mut SheetLines, quantities: &[Quantity])
    requires quantities_value { quantities_verdict (length quantities.now) quantities.now ≡ passes }
    requires most_quantity_in_bounds { length lines.old + length quantities.now * most_quantity ≤ SHEET_TEXT_LENGTH }
    ensures put { lines.new ≡ lines.old ++ flatten (tabulate (length quantities.now) (λ i. conversion.quantity_text (get_or quantities.now i no_quantity))) }
    ensures bounded { length lines.new ≤ length lines.old + length quantities.now * most_quantity }
{
    for quantity in quantities {
        put_quantity(lines, *quantity);
    }
}

// A term.
fn put_term(lines: &mut SheetLines, term: Term)
    requires term_short { TermShort term }
    requires most_term_in_bounds { length lines.old + most_term ≤ SHEET_TEXT_LENGTH }
    ensures put { lines.new ≡ lines.old ++ conversion.term_text term }
    ensures bounded { length lines.new ≤ length lines.old + most_term }
{
    lines.line(b"to=", term.to as i64);
    lines.line(b"coef=", term.coef);
    lines.line(b"first=", term.first as i64);
    lines.line(b"second=", term.second as i64);
}

// The lines of the terms. Stays beside `put_quantities`: a loop of one line, where one over both would take a closure with its contract.
fn put_terms(lines: &mut SheetLines, terms: &[Term])
    requires by_index { (j : ℕ) → j < length terms.now → TermShort (get_or terms.now j no_term) }
    requires most_term_in_bounds { length lines.old + length terms.now * most_term ≤ SHEET_TEXT_LENGTH }
    ensures put { lines.new ≡ lines.old ++ flatten (tabulate (length terms.now) (λ j. conversion.term_text (get_or terms.now j no_term))) }
    ensures bounded { length lines.new ≤ length lines.old + length terms.now * most_term }
{
    for term in terms {
        put_term(lines, *term);
    }
}

// A sheet's lines.
fn put_lines(lines: &mut SheetLines, sheet: Sheet)
    requires sheet_value { sheet_verdict_to stored_steps sheet ≡ passes }
    requires most_sheet_in_bounds { length lines.old + most_sheet ≤ SHEET_TEXT_LENGTH }
    ensures put { lines.new ≡ lines.old ++ conversion.sheet_text sheet }
    ensures bounded { length lines.new ≤ length lines.old + most_sheet }
{
    let n = sheet.head.n;
    put_head(lines, sheet.head);
    put_quantities(lines, &sheet.quantities[..n]);
    lines.line(b"terms=", sheet.terms.count as i64);
    put_terms(lines, sheet.terms.listed());
}

// A sheet in range, as many of its bytes as there is room for.
pub fn put_sheet(text: &mut [u8], at: usize, sheet: Sheet) -> usize
    requires sheet_value { sheet_verdict_to stored_steps sheet ≡ passes }
    requires at_bound { at < 2 ^ 32 }
    ensures put { Put text.old at (conversion.sheet_text sheet) result text.new }
    ensures bounded { result ≤ at + most_sheet }
{
    let mut lines = SheetLines::new();
    put_lines(&mut lines, sheet);
    put_front(text, at, lines.as_slice())
}
