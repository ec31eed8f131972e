// The search: what a row assures, whether that is enough, and the first run of rows in which it is, in one pass.
ghost use Rattle.std.specs.Prelude.{◌≡◌, ◌<◌, get_or};
ghost use Rattle.model.specs.Rows.{rows_in};
ghost use Rattle.model.specs.Step.{no_span};
ghost use Rattle.rows.specs.View.{buffer_of, places_of, row_of};
ghost use Rattle.clear_rule.specs.Asked.{Weighable, Searchable};
ghost use Rattle.clear_rule.specs.Clearance as clearance;

use clear_rule::Query;
use model::SCALE;
use rows::{Row, Rows};

// The end of quantity i's span that a weight takes: a positive one the low, a negative one the high.
fn end_at(row: Row, i: usize, weight: i64) -> i64
    requires { i < row.n }
    ensures { result ≡ clearance.end_for weight (get_or (row_of row.entry).spans i no_span) }
{
    if weight < 0 {
        row.span(i).high
    } else {
        row.span(i).low
    }
}

// base × s + the sum of weight × the end that it takes.
fn assured(row: Row, query: &Query) -> i64
    requires { Weighable row.n 0 (places_of row) query.now }
    ensures { result ≡ clearance.assured query.now (row_of row.entry) }
{
    let mut sum = query.base * SCALE as i64;
    for (i, weight) in query.weights[..row.n].iter().enumerate() {
        sum += *weight * end_at(row, i, *weight);
    }
    sum
}

// Whether a row is certain: that is at least need × s.
fn certain(row: Row, query: &Query) -> bool
    requires { Weighable row.n 0 (places_of row) query.now }
    ensures { result ≡ clearance.certain query.now (row_of row.entry) }
{
    let need = query.need * SCALE as i64;
    need <= assured(row, query)
}

// The first row that opens a run of certain rows, by its number from 1.
pub fn first_run(rows: Rows, query: &Query) -> Option<usize>
    requires { Searchable rows.n rows.count (buffer_of rows) query.now }
    ensures { Ok result ≡ clearance.first_run query.now (rows_in rows.entry.n rows.entry.count (buffer_of rows.entry)) }
{
    let run = query.run;
    let mut streak = 0;
    for row in 0..rows.count {
        streak = if certain(rows.row(row), query) {
            streak + 1
        } else {
            0
        };
        if streak == run {
            return Some(row + 2 - run);
        }
    }
    None
}
