// Whole numbers in decimal, as lines of a text. Every power of ten is the table's (`tens`).
#![tactic(auto)]

ghost use Rattle.std.specs.Prelude.{ℕ, ◌+◌, ◌^◌, ◌≤◌, ◌<◌, List, [], ◌∷◌, ◌++◌, ◌≡◌, pos, nat_abs, length, take};
ghost use Rattle.tens.specs.Tens.{entries};
ghost use Rattle.model.specs.Answer as answer;
ghost use Rattle.printing.specs.Pieces.{Put, pair, sign, line_of};

use std::marker::Model;
use tens::{ENTRIES, power_of_ten};

// The bytes of a line besides its key, its digits and their sign: `=` and the line feed.
pub const ENDS: usize = 2;

// Lines that are put one after another, with room for `N` bytes.
#[derive(Drop)]
pub struct Lines<const N: usize> {
    text: [u8; N],
    end: usize,
}

// Clauses see the bytes that were put so far.
impl<const N: usize> Model for Lines<N> {
    ghost Value = { List ℕ };

    ghost view = { λ lines. take lines.end lines.text };

    ghost invariant = { λ lines. lines.end ≤ N };
}

impl<const N: usize> Lines<N> {
    // No line yet.
    pub fn new() -> Self
        ensures { result ≡ [] }
    {
        Lines {
            text: [0; N],
            end: 0,
        }
    }

    // From the start again.
    pub fn clear(&mut self)
        ensures { self.new ≡ [] }
    {
        self.end = 0;
    }

    // The bytes that were put.
    pub fn as_slice(&self) -> &[u8]
        ensures { result.now ≡ self.now }
    {
        &self.text[..self.end]
    }

    // Bytes as they are. Stays: byte after byte, since a key's `copy_from_slice` took a twentieth more instructions for each line.
    pub fn bytes(&mut self, bytes: &[u8])
        requires { length self.old + length bytes.now ≤ N }
        ensures { self.new ≡ self.old ++ bytes.now }
    {
        for byte in bytes {
            self.byte(*byte);
        }
    }

    // One byte.
    fn byte(&mut self, byte: u8)
        requires { length self.old < N }
        ensures { self.new ≡ self.old ++ byte ∷ [] }
    {
        let at = self.end;
        self.text[at] = byte;
        self.end = at + 1;
    }

    // A minus, where the number is negative.
    fn sign(&mut self, number: i64)
        requires { length self.old + length (sign number) ≤ N }
        ensures { self.new ≡ self.old ++ sign number }
    {
        if number < 0 {
            self.byte(b'-');
        }
    }

    // A natural number.
    fn natural(&mut self, number: u32)
        requires { length self.old + length (answer.decimal (pos number)) ≤ N }
        ensures { self.new ≡ self.old ++ answer.decimal (pos number) }
    {
        let start = self.end;
        let end = start + digit_count(number);
        let text = &mut self.text[..];
        put_digits(&mut text[start..end], number);
        self.end = end;
    }

    // The line of a number: the key, which comes with its `=`, a minus where the number is negative, its digits, a line
    // feed. Without its sign the number has 32 bits, and so ten digits at most.
    pub fn line(&mut self, key: &[u8], number: i64)
        requires number_bound { nat_abs number < 2 ^ 32 }
        requires room { length self.old + length (line_of key.now number) ≤ N }
        ensures { self.new ≡ self.old ++ line_of key.now number }
    {
        self.bytes(key);
        self.sign(number);
        self.natural(number.unsigned_abs() as u32);
        self.byte(b'\n');
    }
}

// The byte of a digit.
#[tactic(auto, unfolding(model::specs::Answer::digit))]
fn digit(number: u32) -> u8
    requires { number < 10 }
    ensures { result ≡ answer.digit number }
{
    b'0' + number as u8
}

// Fills two places with the two digits of a number below 100, a leading 0 with them. Stays: a pair that is handed back and
// copied in (`copy_from_slice`) took an eighth more instructions for each number.
fn put_pair(places: &mut [u8], number: u32)
    requires number_bound { number < 100 }
    requires two_places { length places.old ≡ 2 }
    ensures { places.new ≡ pair number }
{
    let ten = power_of_ten(1);
    places[0] = digit(number / ten);
    places[1] = digit(number % ten);
}

// How many digits a number has: one, and one more for each power of ten from 10 up that it reaches.
fn digit_count(number: u32) -> usize
    ensures counted { result ≡ length (answer.decimal (pos number)) }
    ensures few { result ≤ entries }
{
    for count in 1..ENTRIES {
        let power = power_of_ten(count);
        if number < power {
            return count;
        }
    }
    ENTRIES
}

// Fills a text with a natural number that has so many digits. From the last on two digits at a time are put, to the first,
// which is no 0 but that of 0 itself. Stays: a `while`, for the number itself says when it is used up; and digits by hand, since
// document 02 (CR 3) has them by the table of `tens`.
fn put_digits(text: &mut [u8], number: u32)
    requires { length text.old ≡ length (answer.decimal (pos number)) }
    ensures { text.new ≡ answer.decimal (pos number) }
{
    let hundred = power_of_ten(2);
    let mut end = text.len();
    let mut left = number;
    while hundred <= left {
        let start = end - 2;
        put_pair(&mut text[start..end], left % hundred);
        end = start;
        left /= hundred;
    }
    if power_of_ten(1) <= left {
        put_pair(&mut text[..end], left);
    } else {
        text[0] = digit(left);
    }
}

// Puts bytes at a place of a text and hands back the place that follows them. What lies past the text's end is counted and
// not stored, as in C's snprintf. Stays: what C lends is told in full length by these places (the clauses `printed` of `planner_answer` and
// `planner_convert`); and byte after byte, since between two buffers that C lends `copy_from_slice` is a call of `memmove`, which the
// archive for C does not need otherwise.
pub fn put_front(text: &mut [u8], at: usize, bytes: &[u8]) -> usize
    requires { at + length bytes.now < 2 ^ 64 }
    ensures { Put text.old at bytes.now result text.new }
{
    let room = text.len().saturating_sub(at);
    for i in 0..bytes.len().min(room) {
        text[at + i] = bytes[i];
    }
    at + bytes.len()
}
