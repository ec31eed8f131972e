// Document 01, 'One rounded step': the two roundings. Stays: that d is not 0 is asked by each; d is s, an order from 1 up, G or s less the
// ratio, and a `NonZero` would wrap each of these at its call.
#![tactic(auto)]

ghost use Rattle.std.specs.Prelude.{◌≡◌, ◌+◌, ◌*◌, ◌<◌, ◌≤◌, ◌^◌, pos, neg_ℤ, nat_abs};
ghost use Rattle.rounding.specs.Rounding as rounding;

// m with a minus in front: |-m| may be one more than the largest i64.
fn negated(m: u64) -> i64
    requires { m ≤ 2 ^ 63 }
    ensures { result ≡ neg_ℤ (pos m) }
{
    if m == 0 {
        0
    } else {
        let below = (m - 1) as i64;
        -1 - below
    }
}

// m × n of two numbers that fit in 32 bits: said so, the compiler can form two such products at a time.
pub fn product(m: u64, n: u64) -> u64
    requires m_bound { m < 2 ^ 32 }
    requires n_bound { n < 2 ^ 32 }
    ensures { result ≡ m * n }
{
    let short = m as u32;
    let other = n as u32;
    u64::from(short) * u64::from(other)
}

// up(n, d): the least whole number not below n ÷ d.
pub fn up(n: u64, d: u64) -> u64
    requires { 0 < d }
    ensures { result ≡ rounding.up n d }
{
    n.div_ceil(d)
}

// up(n, d) + 1, the radius of what is rounded once more, where 2d - 1 can be added first.
pub fn up_and_one(n: u64, d: u64) -> u64
    requires d_nonzero { 0 < d }
    requires d_bound { n + 2 * d < 2 ^ 64 }
    ensures { result ≡ rounding.up n d + 1 }
{
    (n + (2 * d - 1)) / d
}

// The whole number nearest to m ÷ d, a half going up.
fn near_magnitude(m: u64, d: u64) -> u64
    requires d_nonzero { 0 < d }
    requires m_bound { m ≤ 2 ^ 63 }
    ensures { result ≡ rounding.near_ℕ m d }
{
    (m + d / 2) / d
}

// near(n, d): the whole number nearest to n ÷ d, a half going away from zero.
pub fn near(n: i64, d: u64) -> i64
    requires { 0 < d }
    ensures { result ≡ rounding.near n d }
{
    let m = near_magnitude(n.unsigned_abs(), d);
    if n < 0 { negated(m) } else { m as i64 }
}
