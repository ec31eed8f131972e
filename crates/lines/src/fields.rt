// Document 01, question 2: a field, given by its key with the equals sign, on its line; or the refusal of a line that is
// not right.
ghost use Rattle.std.specs.Prelude.{◌≡◌, pos};
ghost use Rattle.model.specs.Reading.{gives, end};
ghost use Rattle.lines.specs.Fields.{read_as, whole_after, natural_after, field_gives, whole_as};

use crate::spellings::line;
use model::{Limits, Refusal};

// A field before whose number a minus may be allowed.
#[tactic(auto, unfolding(crate::proofs::Readers::Readers))]
pub fn whole_field<'a>(
    text: &'a [u8],
    key: &[u8],
    minus: bool,
    limits: Limits,
) -> Result<(i64, &'a [u8]), Refusal>
    ensures read { read_as result ≡ whole_after key.now minus limits text.now }
    ensures numbered { field_gives (pos 0) result ≡ gives (pos 0) (whole_after key.now minus limits text.now) }
{
    let (z, text) = line(text, key, minus).ok_or(Refusal::Misspelt)?;
    if limits::within(limits, z) {
        Ok((z, text))
    } else {
        Err(Refusal::OutOfRange)
    }
}

// A field without a minus.
#[tactic(auto, unfolding(crate::proofs::Readers::Readers))]
pub fn natural_field<'a>(
    text: &'a [u8],
    key: &[u8],
    limits: Limits,
) -> Result<(u64, &'a [u8]), Refusal>
    ensures read { read_as result ≡ natural_after key.now limits text.now }
    ensures numbered { field_gives 0 result ≡ gives 0 (natural_after key.now limits text.now) }
{
    let (z, text) = whole_field(text, key, false, limits)?;
    Ok((z.unsigned_abs(), text))
}

// Bytes after the last line count as one more line, misspelt.
#[tactic(auto, unfolding(model::specs::Reading::end))]
pub fn end_of_text(text: &[u8]) -> Result<(), Refusal>
    ensures { whole_as result ≡ end tt text.now }
{
    if text.is_empty() {
        Ok(())
    } else {
        Err(Refusal::Misspelt)
    }
}
