// What a day and a closing write, each member's figures into its own stretch of the lent buffer, and the sums of shares between them.
#![tactic(auto)]

ghost use Rattle.std.specs.Prelude.{◌≡◌, ℕ, ◌*◌, ◌<◌, ◌≤◌, length, get_or, take, drop};
ghost use mathlib.Core.List.{◌++◌, flat_map};
ghost use Rattle.numbers.specs.Sums.{Σ};
ghost use Rattle.methodology.specs.Day.{scale, five};
ghost use Rattle.methodology.specs.Contribution.{charge, funded, three};
ghost use Rattle.quotient.specs.Ranges.{greatest_total, Loss, Charge};
ghost use Rattle.fund.specs.Shares.{share_in, with_shares};

// One member's five daily numbers, at the front of out: its loss is e, the total t, and max the Max EUL that the day reports. On a day
// without losses all are 0.
fn write_five(e: u64, max: u64, t: u64, out: &mut [u64])
    requires loss { Loss e t × (max ≤ greatest_total) }
    requires in_bounds { 5 ≤ length out.old }
    ensures { out.new ≡ five e max t ++ drop 5 out.old }
{
    if t == 0 {
        out[..5].copy_from_slice(&[0; 5]);
        return;
    }
    let cents = quotient::daily(e, max, t);
    out[0] = e;
    out[1] = quotient::share(e, t);
    out[2] = cents.value;
    out[3] = cents.reserve;
    out[4] = cents.estimate;
}

// The five daily numbers of members with these losses.
pub fn write_dailies(losses: &[u64], max: u64, total: u64, out: &mut [u64])
    requires sizes { (length losses.now ≤ 32) × (length out.old ≡ 5 * length losses.now) }
    requires each_loss { (i : ℕ) → i < length losses.now → Loss (get_or losses.now i 0) total }
    requires max_bound { max ≤ greatest_total }
    ensures { out.new ≡ flat_map (λ e. five e max total) losses.now }
{
    for (i, &loss) in losses.iter().enumerate() {
        // The form that document 01 names: "each member's five into its own stretch of the lent buffer". By an index: over
        // `chunks_exact_mut(5)` (tried) the proof does not close, since it knows nothing of what was written but its length.
        write_five(loss, max, total, &mut out[5 * i..]);
    }
}

// The sums of n members' shares, with those that stand in what a day wrote. They are the whole array that a period holds: lent as a slice of
// the first n (tried), they join the rest only by a proof in period of 20 lines more, so the new form is no plainer.
pub fn with_shares(sums: [u64; 32], n: usize, out: &[u64]) -> [u64; 32]
    requires sizes { (n ≤ 32) × (length out.now ≡ 5 * n) }
    requires each_share { (i : ℕ) → i < n → share_in out.now i ≤ scale }
    requires each_sum { (i : ℕ) → get_or sums i 0 ≤ 31 * scale }
    ensures { result ≡ with_shares sums n out.now }
{
    let mut all = sums;
    // By an index: over `all.iter_mut().zip(out.chunks_exact(5))` (tried) the proof does not close, as in `write_dailies`.
    for i in 0..n {
        all[i] += out[5 * i + 1];
    }
    all
}

// The Rates and FX Minimum Contribution Amount.
const MINIMUM: u64 = 50_000_000;

// One member's raw charge, funded and unfunded contribution, at the front of out. The funded one is returned.
fn write_three(raw: u64, out: &mut [u64]) -> u64
    requires raw_bound { raw ≤ 2 * greatest_total }
    requires in_bounds { 3 ≤ length out.old }
    ensures value { result ≡ funded raw }
    ensures out_after { out.new ≡ three raw ++ drop 3 out.old }
{
    let funded = raw.max(MINIMUM);
    out[0] = raw;
    out[1] = funded;
    out[2] = 2 * funded;
    funded
}

// The raw charge for shares that sum to s over d days, where the highest Max EUL is m. Without days it is 0.
fn raw_charge(m: u64, s: u64, d: u64) -> u64
    requires { Charge m s d }
    ensures { result ≡ charge m s d }
{
    if d == 0 { 0 } else { quotient::raw(m, s, d) }
}

// The three numbers of members whose shares have these sums over d days, where the highest Max EUL is m. The total funded is returned.
pub fn write_contributions(sums: &[u64], m: u64, d: u64, out: &mut [u64]) -> u64
    requires sizes { (length sums.now ≤ 32) × (length out.old ≡ 3 * length sums.now) }
    requires each_sum { (i : ℕ) → i < length sums.now → Charge m (get_or sums.now i 0) d }
    ensures value { result ≡ Σ sums.now (λ s. funded (charge m s d)) }
    ensures out_after { out.new ≡ flat_map (λ s. three (charge m s d)) sums.now }
{
    let mut total: u64 = 0;
    for (i, &sum) in sums.iter().enumerate() {
        // by an index, as in `write_dailies`
        total += write_three(raw_charge(m, sum, d), &mut out[3 * i..]);
    }
    total
}
