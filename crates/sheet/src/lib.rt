// Document 01, questions 1 and 2: from the bytes of a sheet to the sheet, or to its first refusal and the sheet of zeros.
#![tactic(auto)]

ghost use Rattle.std.specs.Prelude.{◌≡◌, ◌≤◌};
ghost use Rattle.model.specs.Reading as model;
ghost use Rattle.model.specs.Sheet as sheet;
ghost use Rattle.model.specs.Sheet.{most_quantities, Gives};
ghost use Rattle.lines.specs.Fields.{whole_as};

use lines::end_of_text;
use model::{
    Head, MOST_BYTES, MOST_QUANTITIES, MOST_TERMS, NO_QUANTITY, NO_TERM, ReadSheet, Refusal, Sheet,
    Terms,
};
use sheet_body::{read_quantities, read_terms};
use sheet_head::read_head;

// The sheet of zeros.
const NO_SHEET: Sheet = Sheet {
    head: Head {
        n: 0,
        steps: 0,
        step: 0,
        tail: 0,
        tol: 0,
    },
    quantities: [NO_QUANTITY; MOST_QUANTITIES],
    terms: Terms {
        count: 0,
        list: [NO_TERM; MOST_TERMS],
    },
};

// What follows a head: the quantities, the terms, and no byte more.
#[tactic(auto, unfolding(model::specs::Reading::body, lines::proofs::Readers::FieldReaders), using(lines::proofs::Ends::ends))]
fn read_body(text: &[u8], head: Head) -> Result<Sheet, Refusal>
    requires { head.n ≤ most_quantities }
    ensures { whole_as result ≡ model.body head text.now }
{
    let (quantities, text) = read_quantities(text, head.n)?;
    let (terms, text) = read_terms(text, head.n)?;
    end_of_text(text)?;
    Ok(Sheet {
        head,
        quantities,
        terms,
    })
}

// Question 1, then the lines from the top, with at most so many steps.
fn read_sheet(text: &[u8], most: u32) -> Result<Sheet, Refusal>
    ensures { model.accepted (whole_as result) ≡ model.read_sheet_to most text.now }
{
    if MOST_BYTES < text.len() {
        return Err(Refusal::Oversized);
    }
    let (head, text) = read_head(text, most)?;
    read_body(text, head)
}

// The reading of a sheet, with at most so many steps; a stored sheet may have more than a passage's. Where it is refused, the
// sheet of zeros is read.
#[tactic(auto, unfolding(crate::proofs::Zeros::Zeros))]
pub fn read(text: &[u8], most: u32) -> ReadSheet
    ensures whole { result ≡ model.read_sheet_to most text.now }
    ensures numbered { Gives result.outcome (sheet.result (model.read_sheet_to most text.now).outcome) 0 }
{
    match read_sheet(text, most) {
        Ok(sheet) => ReadSheet {
            outcome: Ok(()),
            sheet,
        },
        Err(refusal) => ReadSheet {
            outcome: Err(refusal.into()),
            sheet: NO_SHEET,
        },
    }
}
