// The records of document 01: a sheet as numbers, and what comes of one, with the numbers of the refusals. specs/ says over
// these what document 01 means; the code that is proved against it is in the crates above.
#![tactic(auto)]

ghost use Rattle.std.specs.Prelude.{◌≡◌, ◌≤◌, pos, neg_ℤ};
ghost use Rattle.model.specs.Sheet as sheet;
ghost use Rattle.model.specs.Sheet.{most_terms, listed};

// s: so many units make one whole.
pub const SCALE: u64 = 16777216;

// 32 wholes.
pub const MOST: u64 = 536870912;

// The most bytes of a sheet.
pub const MOST_BYTES: usize = 4096;

// The most digits of one of its numbers.
pub const MOST_DIGITS: u64 = 9;

// Its most quantities. Stays: that n is at most this is asked where an array is filled or indexed by n, or n is cast to a u32; a
// type for n would be made from the sheet's number at each call.
pub const MOST_QUANTITIES: usize = 8;

// Its most steps.
pub const MOST_STEPS: usize = 240;

// The most steps of a stored sheet, as the conversion reads it.
pub const STORED_STEPS: usize = 400;

// Its most terms.
pub const MOST_TERMS: usize = 32;

// The largest coefficient, without its sign: 16 wholes.
pub const MOST_COEF: u64 = 268435456;

// The largest ratio of a step: one half.
pub const MOST_RATIO: u64 = 8388608;

// The highest degree that a step can have.
pub const MOST_DEGREE: usize = 28;

// The numbers low .. high.
#[derive(Clone, Copy)]
pub struct Limits {
    pub low: i64,
    pub high: i64,
}

// The numbers above the quantities.
#[derive(Clone, Copy)]
pub struct Head {
    pub n: usize,
    pub steps: usize,
    pub step: i64,
    pub tail: u64,
    pub tol: u64,
}

// A quantity's start, in units, or no reading; and the radius of that start.
#[derive(Clone, Copy)]
pub struct Quantity {
    pub start: Option<i64>,
    pub radius: u64,
}

// A term adds coef/s times its factors to the rate of the quantity `to`. Quantities are numbered from 1, and a factor 0
// is no factor. Stays: the numbers are a sheet's own, and the definitions read a term by them (`factors`, `factor` of Step.antt).
#[derive(Clone, Copy)]
pub struct Term {
    pub to: usize,
    pub coef: i64,
    pub first: usize,
    pub second: usize,
}

// The first `count` terms of the list. What stands past them means nothing. Stays: nothing is allocated, and a sheet given as
// numbers may have a count past the list's end, which `verdict` (its clause `whole`) refuses by 3.
#[derive(Clone, Copy)]
pub struct Terms {
    pub count: usize,
    pub list: [Term; MOST_TERMS],
}

// A sheet. What stands in `quantities` past the head's n means nothing. Stays: as for the count of terms.
#[derive(Clone, Copy)]
pub struct Sheet {
    pub head: Head,
    pub quantities: [Quantity; MOST_QUANTITIES],
    pub terms: Terms,
}

// A value with its radius, in units.
#[derive(Clone, Copy)]
pub struct Ball {
    pub value: i64,
    pub radius: u64,
}

// The values and radii of up to 8 quantities, with 0 past them.
pub type Balls = [Ball; MOST_QUANTITIES];

// Two values in units, between which a quantity lies.
#[derive(Clone, Copy)]
pub struct Span {
    pub low: i64,
    pub high: i64,
}

// The lows and highs of up to 8 quantities, with 0 past them.
pub type Spans = [Span; MOST_QUANTITIES];

// Every refusal, with its number in documents 01 and 02.
#[derive(Clone, Copy, Debug, PartialEq, Eq)]
pub enum Refusal {
    Oversized = 1,
    Misspelt = 2,
    OutOfRange = 3,
    NoReading = 4,
    TooFewPlaces = 5,
    TooLarge = 6,
    StepTooLong = 7,
    Intolerable = 8,
    QueryOutOfRange = 9,
    RowOutOfRange = 10,
}

// A refusal, and the number of the refused step, or 0 before step 1. Stays: the number is document 01's `at`, which is printed and told
// to C.
#[derive(Clone, Copy, Debug, PartialEq, Eq)]
pub struct Refused {
    pub refusal: Refusal,
    pub step: usize,
}

// A refusal before step 1.
impl From<Refusal> for Refused {
    ghost from_gives = { λ refusal refused. refused ≡ record { refusal = refusal; step = 0 } };

    fn from(refusal: Refusal) -> Refused {
        Refused { refusal, step: 0 }
    }
}

// What comes of a sheet or a passage.
pub type Outcome = Result<(), Refused>;

// What reading a sheet gives: where it is refused, the sheet of zeros. Stays: the clause `whole` of `sheet::read` holds it.
#[derive(Clone, Copy)]
pub struct ReadSheet {
    pub outcome: Outcome,
    pub sheet: Sheet,
}

// What stands past the terms that are counted.
pub const NO_TERM: Term = Term {
    to: 0,
    coef: 0,
    first: 0,
    second: 0,
};

// What stands past the last quantity.
pub const NO_QUANTITY: Quantity = Quantity {
    start: Some(0),
    radius: 0,
};

// What stands past the last quantity's ball, and past its span.
pub const NO_BALL: Ball = Ball {
    value: 0,
    radius: 0,
};

pub const NO_SPAN: Span = Span { low: 0, high: 0 };

impl Terms {
    // The terms that are counted; where more are counted than the list has, the whole list.
    pub fn listed(&self) -> &[Term]
        ensures { self.now.count ≤ most_terms → result.now ≡ listed self.now }
    {
        &self.list[..self.count.min(MOST_TERMS)]
    }
}

// A refusal's number in documents 01 and 02.
#[tactic(auto, unfolding(crate::specs::Sheet::number))]
pub fn number(refusal: Refusal) -> u64
    ensures { result ≡ sheet.number refusal }
{
    refusal as u64
}

// The same with a minus, as an answer that is one number has it for C.
pub fn minus_number(refusal: Refusal) -> i64
    ensures { result ≡ neg_ℤ (pos (sheet.number refusal)) }
{
    -(number(refusal) as i64)
}

// What is printed as `result`.
#[tactic(auto, unfolding(crate::specs::Sheet::result))]
pub fn result(outcome: Outcome) -> u64
    ensures { result ≡ sheet.result outcome }
{
    match outcome {
        Ok(()) => 0,
        Err(refused) => number(refused.refusal),
    }
}

// What is printed as `at`.
#[tactic(auto, unfolding(crate::specs::Sheet::refused_step))]
pub fn refused_step(outcome: Outcome) -> u64
    ensures { result ≡ sheet.refused_step outcome }
{
    match outcome {
        Ok(()) => 0,
        Err(refused) => refused.step as u64,
    }
}
