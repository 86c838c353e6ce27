// An account's decrease and EUL.
ghost use Rattle.std.specs.Prelude.{◌≡◌, ◌-◌, ◌≤◌, ◌<◌, nat_abs, ◌-ℤ◌, length};
ghost use Rattle.numbers.specs.Signed.{◌⁺};
ghost use Rattle.methodology.specs.Account.{largest_decrease, eul_of};
ghost use Rattle.methodology.specs.Refusals.{limit};
ghost use Rattle.exposure.specs.AccountRanges.{Npvs, Owed};
ghost use Rattle.exposure.specs.Scenario.{stress_read, fall_under};

// A number, or 0 where it is negative.
pub fn gain(x: i64) -> u64
    ensures { result ≡ x ⁺ }
{
    x.max(0) as u64
}

// Base minus stress, or 0 where that is negative.
fn decrease(base: i64, stress: i64) -> u64
    requires { (nat_abs base ≤ limit) × (nat_abs stress ≤ limit) }
    ensures { result ≡ (base -ℤ stress) ⁺ }
{
    gain(base - stress)
}

// The largest decrease of an account, from its part of the day's NPVs: its base, then stress 1 to k.
fn largest_decrease(row: &[i64]) -> u64
    requires { (0 < length row.now) × Npvs row.now }
    ensures { result ≡ largest_decrease (length row.now - 1) row.now }
{
    let base = row[0];
    let stresses = &row[1..];
    let mut most: u64 = 0;
    for &stress in stresses {
        most = most.max(decrease(base, stress));
    }
    most
}

// What an EUL takes of each account: its largest decrease, for the own EUL, or the one under a scenario, 1 to k. No Option, since neither is
// nothing: both are document 01's words.
#[derive(Clone, Copy)]
pub enum Scenario {
    Own,
    Under(usize),
}

impl Scenario {
    // The decrease that it takes from an account's row of NPVs.
    pub fn fall(self, row: &[i64]) -> u64
        requires { (stress_read self < length row.now) × Npvs row.now }
        ensures { result ≡ fall_under self row.now }
    {
        match self {
            Scenario::Own => largest_decrease(row),
            Scenario::Under(j) => decrease(row[0], row[j]),
        }
    }
}

// The decrease less margin, plus extra. It may be negative.
pub fn eul(fall: u64, margin: u64, extra: u64) -> i64
    requires { Owed fall margin extra }
    ensures { result ≡ eul_of fall margin extra }
{
    fall as i64 - margin as i64 + extra as i64
}
