// Document 01, question 2: the lines of a sheet above its quantities.
#![tactic(auto)]

ghost use Rattle.std.specs.Prelude.{◌≡◌};
ghost use Rattle.model.specs.Sheet.{no_head};
ghost use Rattle.model.specs.Reading as model;
ghost use Rattle.lines.specs.Fields.{read_as};
ghost use Rattle.sheet_head.specs.HeadRead.{head_gives};

use lines::{line, natural_field};
use model::{Head, Refusal};

// The step, which may have a minus and is not 0. Stays beside `whole_field`: its range is no interval, and one reader over both would take
// the question as a closure, for two lines.
#[tactic(auto, unfolding(model::specs::Reading::step, lines::proofs::Readers::FieldReaders))]
fn read_step(text: &[u8]) -> Result<(i64, &[u8]), Refusal>
    ensures { read_as result ≡ model.step text.now }
{
    let (step, text) = line(text, b"step=", true).ok_or(Refusal::Misspelt)?;
    if limits::step_within(step) {
        Ok((step, text))
    } else {
        Err(Refusal::OutOfRange)
    }
}

// The lines above the quantities, with at most so many steps.
#[tactic(auto, unfolding(model::specs::Reading::head, crate::specs::HeadRead::head_gives, lines::proofs::Readers::FieldReaders))]
pub fn read_head(text: &[u8], most: u32) -> Result<(Head, &[u8]), Refusal>
    ensures read { read_as result ≡ model.head most text.now }
    ensures numbered { head_gives result ≡ model.gives no_head (model.head most text.now) }
{
    let (n, text) = natural_field(text, b"n=", limits::N)?;
    let (steps, text) = natural_field(text, b"steps=", limits::steps_limits(most))?;
    let (step, text) = read_step(text)?;
    let (tail, text) = natural_field(text, b"tail=", limits::TAIL)?;
    let (tol, text) = natural_field(text, b"tol=", limits::TOL)?;
    let head = Head {
        n: n as usize,
        steps: steps as usize,
        step,
        tail,
        tol,
    };
    Ok((head, text))
}
