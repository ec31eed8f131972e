// Runs case I of document 01, and the two roundings at the ends of their ranges. Each line is one
// rounding and its result; the file `stdout` beside src/ has what they must be.
#![tactic(auto)]

ghost use Rattle.std.specs.Prelude.{◌<◌};

use rounding::{near, up};
use std::io;

// near(n, d), as a line.
fn print_near(rt: &HostRuntime, n: i64, d: u64) -> io::Result<()>
    requires { 0 < d }
{
    let nearest = near(n, d);
    println!(rt; "near({n},{d})={nearest}")
}

// up(n, d), as a line.
fn print_up(rt: &HostRuntime, n: u64, d: u64) -> io::Result<()>
    requires { 0 < d }
{
    let least = up(n, d);
    println!(rt; "up({n},{d})={least}")
}

// Case I of document 01.
fn print_case(rt: &HostRuntime) -> io::Result<()> {
    print_near(rt, 3, 2)?;
    print_near(rt, -3, 2)?;
    print_near(rt, -1, 2)?;
    print_near(rt, 5, 4)?;
    print_up(rt, 1, 2)?;
    print_up(rt, 0, 7)
}

// near at the ends of the ranges, and of a divisor above every numerator.
fn print_near_ends(rt: &HostRuntime) -> io::Result<()> {
    print_near(rt, 0, 1)?;
    for n in [i64::MAX, i64::MIN] {
        print_near(rt, n, 1)?;
    }
    for n in [i64::MAX, i64::MIN] {
        print_near(rt, n, 2)?;
    }
    for n in [i64::MAX, i64::MIN, 8388607, 8388608, -8388607, -8388608] {
        print_near(rt, n, 16777216)?;
    }
    for n in [i64::MAX, i64::MIN] {
        print_near(rt, n, u64::MAX)?;
    }
    Ok(())
}

// up at the same.
fn print_up_ends(rt: &HostRuntime) -> io::Result<()> {
    for d in [1, 2, u64::MAX] {
        print_up(rt, u64::MAX, d)?;
    }
    for n in [u64::MAX - 1, 1] {
        print_up(rt, n, u64::MAX)?;
    }
    Ok(())
}

// Cases of both roundings, at the ends of 64 bits too.
fn main(rt: HostRuntime) -> io::Result<()> {
    print_case(&rt)?;
    print_near_ends(&rt)?;
    print_up_ends(&rt)
}
