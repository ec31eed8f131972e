// Document 01, 'The sheet': lines `key=value`, each ended by one line feed. What is read comes with the bytes that are left, so
// that each line is read from where the last one ended.
#![tactic(auto)]

mod fields;
mod spellings;

pub use fields::{end_of_text, natural_field, whole_field};
pub use spellings::{after, line};
