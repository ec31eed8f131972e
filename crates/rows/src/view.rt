// A row as it is read: the code looks at its places alone, and nothing else there.
ghost use Rattle.std.specs.Prelude.{◌≡◌, ◌≤◌, length};
ghost use Rattle.model.specs.Sheet.{most_quantities};
ghost use Rattle.model.specs.Rows as layout;
ghost use Rattle.rows.specs.Room.{HasRows};

use super::width;
use model::{Ball, Span};

// The parts, in the order in which they stand.
#[derive(Clone, Copy)]
pub enum Part {
    Values,
    Radii,
    Lows,
    Highs,
}

impl Part {
    ghost use Rattle.rows.specs.Room.{part_number};

    // Its number.
    pub fn number(self) -> usize
        ensures { result ≡ part_number self }
    {
        self as usize
    }
}

// A row of n quantities, as it stands in a buffer.
#[derive(Clone, Copy)]
pub struct Row<'a> {
    pub n: usize,
    places: &'a [i64],
    ghost few: { n ≤ most_quantities },
    ghost whole: { length places.now ≡ layout.width n },
}

impl<'a> Row<'a> {
    ghost use Rattle.std.specs.Prelude.{◌<◌, get_or};
    ghost use Rattle.model.specs.Step.{no_ball, no_span};
    ghost use Rattle.rows.specs.Room.{HasRow, part_number};
    ghost use Rattle.rows.specs.View.{row_of, part_of, Stands};

    // A row of a buffer of rows of n quantities.
    pub fn at(rows: &'a [i64], n: usize, row: usize) -> Row<'a>
        requires { HasRow n row rows.now }
        ensures { Stands n row rows.now result }
    {
        let wide = width(n);
        let at = row * wide;
        Row {
            n,
            places: &rows[at..at + wide],
        }
    }

    // How many quantities it has.
    pub fn quantities(self) -> usize
        ensures { result ≡ self.entry.n }
    {
        self.n
    }

    // Its degree.
    pub fn degree(self) -> u64
        ensures { result ≡ (row_of self.entry).degree }
    {
        self.places[0].unsigned_abs()
    }

    // The n numbers of one of its parts.
    pub fn part(self, part: Part) -> &'a [i64]
        ensures whole { length result.now ≡ self.entry.n }
        ensures numbers { result.now ≡ part_of self.entry (part_number part) }
    {
        let at = 1 + part.number() * self.n;
        &self.places[at..at + self.n]
    }

    // The value of quantity i with its radius.
    pub fn ball(self, i: usize) -> Ball
        requires { i < self.n }
        ensures { result ≡ get_or (row_of self.entry).balls i no_ball }
    {
        Ball {
            value: self.part(Part::Values)[i],
            radius: self.part(Part::Radii)[i].unsigned_abs(),
        }
    }

    // The values between which quantity i lies all through the step.
    pub fn span(self, i: usize) -> Span
        requires { i < self.n }
        ensures { result ≡ get_or (row_of self.entry).spans i no_span }
    {
        Span {
            low: self.part(Part::Lows)[i],
            high: self.part(Part::Highs)[i],
        }
    }
}

// The first `count` rows of a buffer of rows of n quantities.
#[derive(Clone, Copy)]
pub struct Rows<'a> {
    pub n: usize,
    pub count: usize,
    pub places: &'a [i64],
    ghost held: { HasRows n count places.now },
}

impl<'a> Rows<'a> {
    ghost use Rattle.std.specs.Prelude.{◌<◌};
    ghost use Rattle.rows.specs.View.{buffer_of, Stands, Shows};

    // Those of a buffer.
    pub fn of(places: &'a [i64], n: usize, count: usize) -> Rows<'a>
        requires { HasRows n count places.now }
        ensures { Shows n count places.now result }
    {
        Rows { n, count, places }
    }

    // Row j of them.
    pub fn row(self, j: usize) -> Row<'a>
        requires { j < self.count }
        ensures { Stands self.entry.n j (buffer_of self.entry) result }
    {
        Row::at(self.places, self.n, j)
    }
}
