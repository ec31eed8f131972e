// The conversion of stored sheets: one from standard input, what it comes out as to standard output. What cannot be read or
// written is said on standard error.
#![tactic(auto)]

use answer::SHEET_LENGTH;
use conversion::{CONVERTED_LENGTH, convert_input};
use input::read_input;
use std::io;

// Stays: the twin of `planner`. A function for both would take the answer as a closure over arrays of lengths of its own, and a bound
// `FnOnce` that names a const parameter gets no generated proof (tried).

// Reads a stored sheet, and prints what it comes out as.
fn main(rt: HostRuntime) -> io::Result<()> {
    let mut sheet = [0u8; SHEET_LENGTH];
    let mut text = [0u8; CONVERTED_LENGTH];
    let Ok(count) = read_input(&mut rt.stdin(), &mut sheet) else {
        return eprintln!(rt; "convert: standard input cannot be read");
    };
    let length = convert_input(&sheet, count, &mut text);
    if rt.write_all(&text[..length]).is_err() {
        return eprintln!(rt; "convert: the conversion cannot be written");
    }
    Ok(())
}
