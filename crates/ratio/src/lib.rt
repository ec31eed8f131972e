// Document 01, 'Ratio and tail': G, the sizes and the ratio, the degree and its tail.
#![tactic(auto)]

mod degree;
mod sizes;

pub use degree::{Truncation, truncate};
pub use sizes::{COUNTS, Sums, largest_reach, ratio, sums_of};
