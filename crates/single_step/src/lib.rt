// One step of a passage by itself: document 01, questions 3 to 6.
#![tactic(auto)]

ghost use Rattle.std.specs.Prelude.{◌≡◌};
ghost use Rattle.model.specs.Sheet.{terms_of};
ghost use Rattle.model.specs.Rows.{balls_of};
ghost use Rattle.model.specs.Passage.{step_of};
ghost use Rattle.enclosure.specs.Trust.{Trusted, Spanned};
ghost use Rattle.taylor.specs.StepAnswers.{advance_of, answered, rows_given, Numbered};

use model::{Balls, Sheet};
use products::Table;
use ratio::sums_of;
use taylor::{Stepped, stopped, take_step};
use terms::gather;
use verdict::verdict;

// One step of the sheet from `start`, by its gathered terms. A sheet that is refused by 3 or 4 gives that refusal, and a
// refused step leaves the values and radii that it started from.
pub fn step(sheet: &Sheet, start: &Balls) -> Stepped
    ensures whole { result ≡ answered start.now (step_of sheet.now (balls_of sheet.now.head.n start.now)) }
    ensures numbered { Numbered result.advance (advance_of (step_of sheet.now (balls_of sheet.now.head.n start.now))) }
    ensures trusted { Trusted (terms_of sheet.now) sheet.now.head.step sheet.now.head.tol (balls_of sheet.now.head.n start.now) (rows_given sheet.now.head.n result) }
    ensures spanned { Spanned (terms_of sheet.now) sheet.now.head.step (balls_of sheet.now.head.n start.now) (rows_given sheet.now.head.n result) }
{
    if let Err(refused) = verdict(sheet) {
        return stopped(refused.refusal, *start);
    }
    let gathered = gather(&sheet.terms);
    let terms = gathered.listed();
    let sums = sums_of(sheet.head.n, terms);
    let mut table = Table::new();
    take_step(&sheet.head, terms, &sums, start, &mut table)
}
