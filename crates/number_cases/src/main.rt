// Document 02, CR 3: numbers are printed and read by one table of powers of ten. Here both are run at the ends of each number
// of digits. A line `number=` is a number as it is printed; the line below it is what is read from that very line: `read=`
// and the number again, or `unread`, since a sheet's numbers have at most nine digits. The file `stdout` beside src/ has
// what they must be.
#![tactic(auto)]

ghost use Rattle.std.specs.Prelude.{◌^◌, ◌<◌, nat_abs};

use decimal::Lines;
use lines::line;
use std::io;

// The most bytes of a line: number=-4294967295 with its line feed.
const MOST_LINE: usize = 19;

// A number, and what is read from its line.
fn show(rt: &HostRuntime, number: i64) -> io::Result<()>
    requires { nat_abs number < 2 ^ 32 }
{
    let mut printed = Lines::<MOST_LINE>::new();
    printed.line(b"number=", number);
    rt.write_all(printed.as_slice())?;
    let Some((z, _)) = line(printed.as_slice(), b"number=", true) else {
        return println!(rt; "unread");
    };
    let mut again = Lines::<MOST_LINE>::new();
    again.line(b"read=", z);
    rt.write_all(again.as_slice())
}

// Up to five digits.
const SHORT: [i64; 10] = [0, 1, 9, 10, 99, 100, 999, 1000, 9999, 10000];

// Up to nine digits.
const LONG: [i64; 9] = [
    99999, 100000, 999999, 1000000, 9999999, 10000000, 99999999, 100000000, 999999999,
];

// Ten digits: their first number, the largest value of a row, the largest number that is printed.
const TEN_DIGITS: [i64; 3] = [1000000000, 1610612736, 4294967295];

// With a minus.
const NEGATIVE: [i64; 9] = [
    -1,
    -9,
    -10,
    -99,
    -100,
    -999999999,
    -1000000000,
    -1610612736,
    -4294967295,
];

// Each number of digits from its first number to its last.
fn main(rt: HostRuntime) -> io::Result<()> {
    for number in SHORT {
        show(&rt, number)?;
    }
    for number in LONG {
        show(&rt, number)?;
    }
    for number in TEN_DIGITS {
        show(&rt, number)?;
    }
    for number in NEGATIVE {
        show(&rt, number)?;
    }
    Ok(())
}
