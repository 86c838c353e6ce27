// The quotients of a day and of a month, each rounded once, from the exact fraction: their products pass 64 bits, and fit in 128.
#![tactic(auto)]

ghost use Rattle.std.specs.Prelude.{◌≡◌, ◌*◌, ◌^◌, ◌<◌, ◌≤◌};
ghost use Rattle.numbers.specs.Rounding.{ceil_div, round_div};
ghost use Rattle.methodology.specs.Day.{scale};
ghost use Rattle.quotient.specs.Ranges.{greatest_total, Loss, Charge};

// The share of a member that has the whole loss.
pub const SCALE: u64 = 1_000_000_000_000_000;

// The share of a loss e in the total t. `Loss`, and in `daily` a bound of Max EUL, are asked for and no struct has them: it would be taken apart
// again in each body.
pub fn share(e: u64, t: u64) -> u64
    requires { Loss e t × (0 < t) }
    ensures { result ≡ ceil_div (e * scale) t }
{
    (u128::from(e) * u128::from(SCALE)).div_ceil(u128::from(t)) as u64
}

// A member's figures of a day, in cents.
#[derive(Clone, Copy)]
pub struct Cents {
    pub value: u64,
    pub reserve: u64,
    pub estimate: u64,
}

// The figures for a loss e in the total t, where Max EUL is max, which need not be at most t: e is a part of t, so e * max / t is at most max.
pub fn daily(e: u64, max: u64, t: u64) -> Cents
    requires { Loss e t × (max ≤ greatest_total) × (0 < t) }
    ensures { (result.value ≡ round_div (100 * e * max) t) × (result.reserve ≡ round_div (110 * e * max) t) × (result.estimate ≡ round_div (220 * e * max) t) }
{
    let product = u128::from(e) * u128::from(max);
    Cents {
        value: nearest(100 * product, t),
        reserve: nearest(110 * product, t),
        estimate: nearest(220 * product, t),
    }
}

// The raw charge for shares that sum to s over d days, where the highest Max EUL is m.
pub fn raw(m: u64, s: u64, d: u64) -> u64
    requires { Charge m s d × (0 < d) }
    ensures { result ≡ ceil_div (11 * m * s) (10 * d * scale) }
{
    (11 * u128::from(m) * u128::from(s)).div_ceil(10 * u128::from(d) * u128::from(SCALE)) as u64
}

// p by q, to the nearest, a half up. With a quotient below 2^63, twice p and q more fit in 128 bits.
fn nearest(p: u128, q: u64) -> u64
    requires { p < 2 ^ 63 * q }
    ensures { result ≡ round_div p q }
{
    let q = u128::from(q);
    ((2 * p + q) / (2 * q)) as u64
}
