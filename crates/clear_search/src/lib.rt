// Document 02, CR 2 and CR 6: what is asked before the search for a clear run, and the search.
#![tactic(auto)]

mod questions;
mod search;

pub use questions::{query_within, rows_within};
pub use search::first_run;
