// Rows 1, 10, 3 and 4 of the refusal table: the limits of what an opening brings, of a day's number, and of a day's lengths.
ghost use Rattle.std.specs.Prelude.{◌≡◌, ◌+◌, ◌≤◌, ltb, length};
ghost use Rattle.std.specs.Bool.{then_some};
ghost use Rattle.std.specs.List.{list_any};
ghost use Rattle.methodology.specs.Brought.{day_brought};
ghost use Rattle.methodology.specs.Refusals.{outside as outside_limits, n_outside, k_outside, group_outside, bad_opening, bad_presence, opening_rows, bad_day_number, count_outside, bad_input};
ghost use Rattle.validation.specs.Slices.{first_bad};

use methodology::{Day, Opening, Refusal};

// Whether x is below the least or above the most.
pub(crate) fn outside(least: u64, most: u64, x: u64) -> bool
    ensures { result ≡ outside_limits least most x }
{
    !(least..=most).contains(&x)
}

// Three names over one test, as document 01 has them: generic over the limits, each use would be of numbers.

// "n members, numbered 1 to n (1 to 32)".
pub fn n_outside(n: u64) -> bool
    ensures { result ≡ n_outside n }
{
    outside(1, 32, n)
}

// "k stress scenarios (1 to 16)".
pub fn k_outside(k: u64) -> bool
    ensures { result ≡ k_outside k }
{
    outside(1, 16, k)
}

// "accounts not 1 to 256".
pub fn count_outside(count: u64) -> bool
    ensures { result ≡ count_outside count }
{
    outside(1, 256, count)
}

// Whether a group number of the list is not 0 to 32.
fn any_group_outside(groups: &[u64]) -> bool
    ensures { result ≡ list_any group_outside groups.now }
{
    groups.iter().any(|&group| outside(0, 32, group))
}

// Whether row 1 is met by what an opening brings.
#[tactic(auto, unfolding(methodology::specs::Refusals::bad_opening))]
fn bad_opening(n: u64, k: u64, groups: &[u64], firsts: &[u64], lasts: &[u64]) -> bool
    ensures { result ≡ bad_opening (record { n = n; k = k; groups = groups.now; firsts = firsts.now; lasts = lasts.now }) }
{
    n_outside(n)
        || k_outside(k)
        || any_group_outside(groups)
        || groups.len() as u64 != n
        || firsts.len() as u64 != n
        || lasts.len() as u64 != n
}

// Whether row 10 is met by a member's first and last day.
fn bad_presence(first: u64, last: u64) -> bool
    ensures { result ≡ bad_presence first last }
{
    last < first || outside(1, 31, first) || outside(1, 31, last)
}

// The number of the first member that meets it, if one does. Each has a first and a last day.
fn first_bad_presence(firsts: &[u64], lasts: &[u64]) -> Option<u64>
    requires { length lasts.now ≡ length firsts.now }
    ensures { let bad10 = first_bad firsts.now lasts.now in result ≡ then_some (ltb bad10 (length firsts.now)) (bad10 + 1) }
{
    for i in 0..firsts.len() {
        if bad_presence(firsts[i], lasts[i]) {
            return Some(i as u64 + 1);
        }
    }
    None
}

// The rows of what an opening brings, in their order: 1, 10.
pub fn opening_rows(
    n: u64,
    k: u64,
    groups: &[u64],
    firsts: &[u64],
    lasts: &[u64],
) -> Result<(), Refusal>
    ensures { result ≡ opening_rows (record { n = n; k = k; groups = groups.now; firsts = firsts.now; lasts = lasts.now }) }
{
    if bad_opening(n, k, groups, firsts, lasts) {
        return Err(Refusal::BadOpening);
    }
    if let Some(member) = first_bad_presence(firsts, lasts) {
        return Err(Refusal::BadPresence(member));
    }
    Ok(())
}

// Whether row 3 is met, where `last` is the last accepted day number.
#[tactic(auto, unfolding(methodology::specs::Refusals::bad_day_number))]
pub fn bad_day_number(last: u64, number: u64) -> bool
    ensures { result ≡ bad_day_number last number }
{
    outside(1, 31, number) || number <= last
}

// Whether row 4 is met by what a day brings.
pub fn bad_input(opening: Opening, day: &Day) -> bool
    requires { opening.k ≤ 16 }
    ensures { result ≡ bad_input opening (day_brought day.now) }
{
    let count = day.headings.len();
    count_outside(count as u64)
        || day.npvs.len() != count * (opening.k as usize + 1)
        || day.margins.len() != count
        || day.extras.len() != count
}
