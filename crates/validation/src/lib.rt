// The rows of the refusal table that go by a call's arguments: those of a day as it is brought here, those of an opening and the limits of rows
// 3 and 4 in `limits`. Any numbers may come in: a wrong one is an answer.
#![tactic(auto)]

pub mod limits;

ghost use Rattle.std.specs.Prelude.{◌≡◌, ◌||◌, ◌+◌, ◌*◌, ◌≤◌, ◌<◌, ltb, length};
ghost use Rattle.std.specs.Bool.{then_some};
ghost use Rattle.std.specs.List.{list_any, position_or_len};
ghost use Rattle.methodology.specs.Account.{present, accounts, nobody};
ghost use Rattle.methodology.specs.Brought.{day_brought};
ghost use Rattle.methodology.specs.Refusals.{member_outside, member_absent, not_rising, number_above, kind_unknown, zero_and_house_apart, first_not_zero, passed_over, member_skipped, bad_heading, first_bad_heading, last_missing, limit, npv_outside, outside as outside_limits, bad_amount, account_rows, day_rows};
ghost use Rattle.validation.specs.Slices.{listed};

use crate::limits::{bad_day_number, bad_input, outside};
use methodology::{Day, Heading, KIND_H, KIND_U, Opening, Refusal};
use std::cmp::Ordering;

// The rows of what a day brings, in their order: 4, 3, 5, 6. `last` is the last accepted day number.
pub fn day_rows(opening: Opening, last: u64, day: &Day) -> Result<(), Refusal>
    requires { (opening.n ≤ 32) × (opening.k ≤ 16) }
    ensures { result ≡ day_rows (listed opening) last (day_brought day.now) }
{
    if bad_input(opening, day) {
        return Err(Refusal::BadLengths); // before row 3
    }
    if bad_day_number(last, day.terms.number) {
        return Err(Refusal::BadDayNumber);
    }
    account_rows(opening, day)
}

// The rows of a day's accounts, in their order: 5, 6.
pub fn account_rows(opening: Opening, day: &Day) -> Result<(), Refusal>
    requires few { (opening.n ≤ 32) × (opening.k ≤ 16) }
    requires some { 1 ≤ length day.now.headings.now }
    requires npvs_len { length day.now.npvs.now ≡ length day.now.headings.now * (opening.k + 1) }
    requires margins_len { length day.now.margins.now ≡ length day.now.headings.now }
    requires extras_len { length day.now.extras.now ≡ length day.now.headings.now }
    ensures { result ≡ account_rows (listed opening) (day_brought day.now) }
{
    let number = day.terms.number;
    if let Some(index) = first_bad_heading(&opening, number, day.headings) {
        return Err(Refusal::BadHeading(index as u64));
    }
    if last_missing(&opening, number, day.headings) {
        return Err(Refusal::BadHeading(day.headings.len() as u64));
    }
    if let Some(index) = first_bad_amount(opening.k as usize, day) {
        return Err(Refusal::BadAmount(index as u64));
    }
    Ok(())
}

// The index of the first bad heading, if one is bad, on the day with this number.
fn first_bad_heading(opening: &Opening, number: u64, headings: &[Heading]) -> Option<usize>
    requires { opening.now.n ≤ 32 }
    ensures { let index = first_bad_heading (listed opening.now) number nobody headings.now in result ≡ then_some (ltb index (length headings.now)) index }
{
    // nobody's heading stands before the first, as in the definitions: an `Option` would need rules of its own
    let mut prev = Heading::NOBODY;
    for (i, &heading) in headings.iter().enumerate() {
        if bad_heading(opening, number, prev, heading) {
            return Some(i);
        }
        prev = heading;
    }
    None
}

// Whether a heading is bad, where prev is the one before it.
#[tactic(auto, unfolding(methodology::specs::Refusals::bad_heading))]
fn bad_heading(opening: &Opening, number: u64, prev: Heading, heading: Heading) -> bool
    requires { opening.now.n ≤ 32 }
    ensures { result ≡ bad_heading (listed opening.now) number prev heading }
{
    bad_alone(opening, number, heading) || bad_after(opening, number, prev, heading)
}

// Whether it is bad by itself: a member outside 1 to n, or one that is absent, a number above 65,535, an unknown kind (the known ones go up to
// U), number 0 without H or H without 0.
fn bad_alone(opening: &Opening, number: u64, heading: Heading) -> bool
    requires { opening.now.n ≤ 32 }
    ensures { result ≡ (member_outside opening.now.n heading || member_absent (listed opening.now) number heading || number_above heading || kind_unknown heading || zero_and_house_apart heading) }
{
    outside(1, opening.n, heading.member)
        || !present(opening, number, heading.member)
        || heading.number > 65535
        || heading.kind > KIND_U
        || (heading.number == 0) != (heading.kind == KIND_H)
}

// Whether it is bad after prev: not strictly rising by member, then number; a member's first account that is not 0; a present member skipped.
fn bad_after(opening: &Opening, number: u64, prev: Heading, heading: Heading) -> bool
    requires { (heading.member ≤ opening.now.n) × (opening.now.n ≤ 32) }
    ensures { result ≡ (not_rising prev heading || first_not_zero prev heading || member_skipped (listed opening.now) number prev heading) }
{
    match heading.member.cmp(&prev.member) {
        Ordering::Less => true,
        Ordering::Equal => heading.number <= prev.number,
        Ordering::Greater => {
            heading.number != 0 || passed_over(opening, number, prev.member, heading.member)
        }
    }
}

// Whether a member that is present on the day has a number between these two: 0 stands before a day's first account, n + 1 after its last.
fn passed_over(opening: &Opening, number: u64, from: u64, to: u64) -> bool
    requires { (from < to) × (to ≤ opening.now.n + 1) × (opening.now.n ≤ 32) }
    ensures { result ≡ passed_over (listed opening.now) number from to }
{
    for m in from + 1..to {
        if present(opening, number, m) {
            return true;
        }
    }
    false
}

// Whether member m is present on the day.
fn present(opening: &Opening, number: u64, m: u64) -> bool
    requires { (1 ≤ m) × (m ≤ opening.now.n) × (opening.now.n ≤ 32) }
    ensures { result ≡ present (listed opening.now) number m }
{
    let i = m as usize - 1;
    opening.firsts[i] <= number && number <= opening.lasts[i]
}

// Whether a present member has no account, where no heading is bad: then the last members are missing, those after the last account's.
fn last_missing(opening: &Opening, number: u64, headings: &[Heading]) -> bool
    requires few { opening.now.n ≤ 32 }
    requires some { 1 ≤ length headings.now }
    requires none_bad { first_bad_heading (listed opening.now) number nobody headings.now ≡ length headings.now }
    ensures { result ≡ last_missing (listed opening.now) number headings.now }
{
    let last = headings[headings.len() - 1];
    passed_over(opening, number, last.member, opening.n + 1)
}

// The index of the first account with a bad amount, if one has. Each account has k + 1 NPVs.
fn first_bad_amount(k: usize, day: &Day) -> Option<usize>
    requires k_few { k ≤ 16 }
    requires npvs_len { length day.now.npvs.now ≡ length day.now.headings.now * (k + 1) }
    requires margins_len { length day.now.margins.now ≡ length day.now.headings.now }
    requires extras_len { length day.now.extras.now ≡ length day.now.headings.now }
    ensures { let index = position_or_len bad_amount (accounts k (day_brought day.now)) in result ≡ then_some (ltb index (length day.now.headings.now)) index }
{
    let width = k + 1;
    // By an index: over `chunks_exact(width)` zipped with margins and extras (tried) the proof of a `position` does not close.
    for i in 0..day.headings.len() {
        let at = i * width;
        if bad_amounts(&day.npvs[at..at + width], day.margins[i], day.extras[i]) {
            return Some(i);
        }
    }
    None
}

// The limit of a margin, and of an NPV on either side of 0.
const LIMIT: u64 = 1_000_000_000_000;

// Whether an account has a bad amount: an NPV or the margin outside its limits, or the extra above the margin.
fn bad_amounts(row: &[i64], margin: u64, extra: u64) -> bool
    ensures { result ≡ (list_any npv_outside row.now || outside_limits 0 limit margin || ltb margin extra) }
{
    any_npv_outside(row) || margin > LIMIT || margin < extra
}

// Whether an NPV of a row is outside its limits.
fn any_npv_outside(row: &[i64]) -> bool
    ensures { result ≡ list_any npv_outside row.now }
{
    row.iter().any(|&z| npv_outside(z))
}

// Whether an NPV is outside its limits.
fn npv_outside(z: i64) -> bool
    ensures { result ≡ npv_outside z }
{
    z.unsigned_abs() > LIMIT
}
