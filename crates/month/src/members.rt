// The member lines, and the opening call that they ask for.
ghost use Rattle.std.specs.Prelude.{◌≡◌, ◌+◌, ◌^◌, ◌≤◌, length, MatchResult};
ghost use Rattle.report.specs.Prints.{Prints};
ghost use Rattle.month.specs.MemberLines.{members_due, MembersRead, MemberBad};

use crate::days::days;
use answers::print_refused_opening;
use day::Progress;
use lines::numbers;
use methodology::Refusal;
use period::{Period, Reply};
use report::Printer;

// Reads the member lines of an opening, their groups, first days and last days into the slices, which are equally long. It answers what follows
// them, or the first bad line, counted from 0.
fn read_members<'a>(
    text: &'a [u8],
    groups: &mut [u64],
    firsts: &mut [u64],
    lasts: &mut [u64],
) -> Result<&'a [u8], usize>
    requires { (1 ≤ length groups.old) × (length firsts.old ≡ length groups.old) × (length lasts.old ≡ length groups.old) }
    ensures { MatchResult result (λ rest. MembersRead text.now groups.new firsts.new lasts.new rest.now) (λ j. MemberBad text.now (length groups.old) j) }
{
    let mut rest = text;
    for j in 0..groups.len() {
        let Some(line) = numbers::<4>(rest, b"member") else {
            return Err(j);
        };
        let ([member, group, first, last], next) = line; // not in the pattern above: the prover takes no array under `Some`
        if member != j as u64 + 1 {
            return Err(j);
        }
        groups[j] = group;
        firsts[j] = first;
        lasts[j] = last;
        rest = next;
    }
    Ok(rest)
}

// The report from the member lines on. The period line brought n and k.
pub fn from_members(text: &[u8], n: u64, k: u64, printer: &mut Printer)
    requires limits { (1 ≤ n) × (n ≤ 32) × (1 ≤ k) × (k ≤ 16) }
    requires counted { length text.now + 2 ≤ 2 ^ 63 }
    ensures { Prints printer.old (members_due text.now n k) printer.new }
{
    let mut groups = [0; 32];
    let groups = &mut groups[..n as usize];
    let mut firsts = [0; 32];
    let firsts = &mut firsts[..n as usize];
    let mut lasts = [0; 32];
    let lasts = &mut lasts[..n as usize];
    let rest = match read_members(text, groups, firsts, lasts) {
        Ok(rest) => rest,
        Err(j) => return printer.refusal(Refusal::BadLine, 2 + j as u64),
    };
    let Reply { period, outcome } = Period::fresh().opening(n, k, groups, firsts, lasts);
    if let Err(refusal) = outcome {
        return print_refused_opening(printer, refusal);
    }
    let from = Progress {
        rest,
        line: 2 + n,
        n: n as usize,
        k: k as usize,
        period,
    };
    days(from, printer)
}
