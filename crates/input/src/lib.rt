// A program's standard input, read into a buffer.
#![tactic(auto)]

ghost use Rattle.std.specs.Prelude.{◌≤◌, true, ◌≡◌, length};
ghost use Rattle.input.specs.Counted.{counted, readable, turn_of};

use std::io;
use std::io::Read;

// What a read came to, by what it answered, where it had room for so many bytes: so many more, or that the input has ended; or its
// failure.
#[tactic(auto, using(crate::proofs::Turns::end_is, crate::proofs::Turns::more_is), unfolding(crate::specs::Counted::turn_of))]
fn turn_of(got: io::Result<usize>, room: usize) -> io::Result<Option<usize>>
    ensures { result ≡ turn_of got room }
{
    let more = got?.min(room);
    if more == 0 { Ok(None) } else { Ok(Some(more)) }
}

// Reads a program's standard input, `from`, into `bytes` until it ends or `bytes` is full. Which bytes these are, and what each
// read came to, no contract can say: of a read no more is assumed than how many bytes it may answer.
#[tactic(auto, using(crate::proofs::Turns::more_fits), unfolding(crate::specs::Counted::counted, crate::specs::Counted::readable))]
pub fn read_input<R: Read>(from: &mut R, bytes: &mut [u8]) -> io::Result<usize>
    ensures kept { length bytes.new ≡ length bytes.old }
    ensures bounded { counted result ≤ length bytes.new }
    ensures asked { length bytes.old ≡ 0 → readable result ≡ true }
{
    // Stays: a `while`, for each read says how far it came.
    let mut count = 0;
    while count < bytes.len() {
        let got = from.read(&mut bytes[count..]);
        let Some(more) = turn_of(got, bytes.len() - count)? else {
            break;
        };
        count += more;
    }
    Ok(count)
}
