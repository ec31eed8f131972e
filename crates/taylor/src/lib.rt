// One rounded step of document 01: its questions, and from values and radii to the next row.
#![tactic(auto)]

mod step;

pub use step::{Numbers, Stepped, small, stopped, take_step};
