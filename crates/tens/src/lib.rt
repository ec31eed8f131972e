// Document 02, CR 3: the powers of ten by which numbers are read and printed, all from one table.
#![tactic(auto)]

ghost use Rattle.std.specs.Prelude.{◌^◌, ◌<◌, ◌≡◌};
ghost use Rattle.tens.specs.Tens.{entries, PowersOfTen};

// How many there are.
pub const ENTRIES: usize = 10;

const TENS: [u32; ENTRIES] = [
    1,
    10,
    100,
    1_000,
    10_000,
    100_000,
    1_000_000,
    10_000_000,
    100_000_000,
    1_000_000_000,
];

// The table, which has the rule.
#[tactic(auto, using(crate::proofs::Tens::table_rule))]
fn table() -> &'static [u32; ENTRIES]
    ensures { PowersOfTen result.now }
{
    &TENS
}

// 10^k, for every k that the table has.
#[tactic(auto, using(crate::proofs::Tens::entry_is_power))]
pub fn power_of_ten(k: usize) -> u32
    requires { k < entries }
    ensures { result ≡ 10 ^ k }
{
    table()[k]
}
