// Document 01, 'The sheet': what stands at the front of some bytes, and the bytes that are left after it.
ghost use Rattle.std.specs.Prelude.{◌≡◌, ◌-◌, ◌<◌, pos, option_map};
ghost use Rattle.model.specs.Sheet.{most_digits};
ghost use Rattle.model.specs.Reading as model;
ghost use Rattle.lines.specs.Lines.{front_digit, spelled_as, spelling, line_after, line_asked, line_gives};

use model::MOST_DIGITS;
use tens::power_of_ten;

// The digit at the front.
#[tactic(auto, unfolding(crate::specs::Lines::front_digit, model::specs::Reading::is_digit))]
fn digit(text: &[u8]) -> Option<(u64, &[u8])>
    ensures { option_map (λ x. (x.0, x.1.now)) result ≡ front_digit text.now }
{
    let (b, rest) = text.split_first()?;
    if b.is_ascii_digit() {
        Some((u64::from(*b - b'0'), rest))
    } else {
        None
    }
}

// The digits after the first, up to the most that a number may have. Stays: by hand, since document 02 (CR 3) has them by the table
// of `tens`.
fn digits(text: &[u8], first: u64) -> (i64, &[u8])
    requires { first < 10 }
    ensures { model.Spelled.spelled result.0 result.1.now ≡ model.digits (most_digits - 1) first text.now }
{
    let mut value = first;
    let mut rest = text;
    for _ in 1..MOST_DIGITS {
        let Some((d, next)) = digit(rest) else {
            return (value as i64, rest);
        };
        value = value * power_of_ten(1) as u64 + d;
        rest = next;
    }
    (value as i64, rest)
}

// One to nine digits, no leading zero except 0 itself.
#[tactic(auto, using(crate::proofs::Digits::first_digits))]
fn natural(text: &[u8]) -> Option<(i64, &[u8])>
    ensures { spelled_as result ≡ model.natural text.now }
{
    let (d, rest) = digit(text)?;
    if d == 0 {
        Some((0, rest))
    } else {
        Some(digits(rest, d))
    }
}

// A natural number after a minus, which never stands before 0.
#[tactic(auto, unfolding(model::specs::Reading::negated))]
fn negative(text: &[u8]) -> Option<(i64, &[u8])>
    ensures { spelled_as result ≡ model.negated (model.natural text.now) }
{
    let (z, rest) = natural(text)?;
    if 0 < z { Some((-z, rest)) } else { None }
}

// A number that may have a minus.
#[tactic(auto, unfolding(model::specs::Reading::signed))]
fn signed(text: &[u8]) -> Option<(i64, &[u8])>
    ensures { spelled_as result ≡ model.signed text.now }
{
    let (b, rest) = text.split_first()?;
    if *b == b'-' {
        negative(rest)
    } else {
        natural(text)
    }
}

// A number, before which a minus may be allowed. Stays: the flag is the definitions' own (`spelling`, by which the clause `read` of `line`
// speaks), and two functions in its place would be twins from here to the fields.
#[tactic(auto, unfolding(crate::specs::Lines::spelling))]
fn number(text: &[u8], minus: bool) -> Option<(i64, &[u8])>
    ensures { spelled_as result ≡ spelling minus text.now }
{
    if minus { signed(text) } else { natural(text) }
}

// The bytes after a key, if it stands at the front.
#[tactic(auto, using(crate::proofs::Keys::found))]
pub fn after<'a>(text: &'a [u8], key: &[u8]) -> Option<&'a [u8]>
    ensures { option_map (λ rest. rest.now) result ≡ model.after key.now text.now }
{
    text.strip_prefix(key)
}

// One line: the key with its equals sign, a number, a line feed.
#[tactic(auto, unfolding(crate::proofs::Readers::Readers))]
pub fn line<'a>(text: &'a [u8], key: &[u8], minus: bool) -> Option<(i64, &'a [u8])>
    ensures read { spelled_as result ≡ line_after key.now minus text.now }
    ensures numbered { line_gives result ≡ model.gives (pos 0) (line_asked key.now minus text.now) }
{
    let text = after(text, key)?;
    let (z, text) = number(text, minus)?;
    let text = after(text, b"\n")?;
    Some((z, text))
}
