// The planner: one sheet from standard input, its answer to standard output. What cannot be read or written is said on
// standard error.
#![tactic(auto)]

use answer::{SHEET_LENGTH, TEXT_LENGTH, answer_input};
use input::read_input;
use std::io;

// Stays: the twin of `convert`. A function for both would take the answer as a closure over arrays of lengths of its own, and a bound
// `FnOnce` that names a const parameter gets no generated proof (tried).

// Reads a sheet, and prints its answer.
fn main(rt: HostRuntime) -> io::Result<()> {
    let mut sheet = [0u8; SHEET_LENGTH];
    let mut text = [0u8; TEXT_LENGTH];
    let Ok(count) = read_input(&mut rt.stdin(), &mut sheet) else {
        return eprintln!(rt; "planner: standard input cannot be read");
    };
    let length = answer_input(&sheet, count, &mut text);
    if rt.write_all(&text[..length]).is_err() {
        return eprintln!(rt; "planner: the answer cannot be written");
    }
    Ok(())
}
