// Document 02, CR 2 and CR 6: what is asked about the rows, and what is answered. specs/ says what it means.
#![tactic(auto)]

use model::{MOST_QUANTITIES, Refusal};

// What is asked about the rows: a weight for each quantity, a base and a need, in units, and how many rows in a row.
// Weights past the quantities mean nothing.
#[derive(Clone, Copy)]
pub struct Query {
    pub weights: [i64; MOST_QUANTITIES],
    pub base: i64,
    pub need: i64,
    pub run: usize,
}

// The number, from 1, of the first row that opens such a run; or there is none; or why nothing was looked for.
pub type Found = Result<Option<usize>, Refusal>;
