// A day of the month's text: its acct lines are read, the day call is made, and what it says is printed.
#![tactic(auto)]

ghost use Rattle.std.specs.Prelude.{◌+◌, ◌^◌, ◌≤◌, ◌<◌, length};

use accounts::Places;
use answers::{print_day, print_refused_day};
use methodology::{Day, DayTerms, Refusal};
use period::{Period, Reply};
use report::Printer;

// How far a report has come: what is left of the text, the number of the line at its front, and the period as the calls so far have left it,
// with n members and k scenarios, as the text brought them: the period's own are private.
#[derive(Clone, Copy)]
pub struct Progress<'a> {
    pub rest: &'a [u8],
    pub line: u64,
    pub n: usize,
    pub k: usize,
    pub period: Period,
    // each line has a byte at least, so that no line's number overflows
    ghost counted: { line + length rest.now ≤ 2 ^ 63 },
    ghost limits: { (n ≤ 32) × (1 ≤ k) × (k ≤ 16) },
}

impl<'a> Progress<'a> {
    ghost use Rattle.std.specs.Prelude.{◌≡◌, IfSome};
    ghost use Rattle.methodology.specs.Register.{Register};
    ghost use Rattle.methodology.specs.Brought.{day_brought};
    ghost use Rattle.accounts.specs.AcctLines.{EndsWith, accounts_due, day_due};
    ghost use Rattle.day.specs.Turns.{Stands, TurnMeets};

    // A day's turn, whose line is the one at the front: `rest` follows it, and begins with the acct lines, for which places are lent. It answers
    // where the report goes on, unless it is over.
    pub fn take_day(
        self,
        terms: DayTerms,
        count: usize,
        rest: &'a [u8],
        places: &mut Places,
        printer: &mut Printer,
    ) -> Option<Progress<'a>>
        requires few { (1 ≤ count) × (count ≤ 256) }
        requires counted { self.line + length rest.now < 2 ^ 63 }
        ensures turn_meets { (g : Register) → Stands g self.entry → TurnMeets (accounts_due rest.entry.now g terms self.entry.line count) printer.old printer.new result }
        ensures goes_on { IfSome result (λ to. EndsWith rest.entry.now to.rest.now × (to.n ≡ self.entry.n) × (to.k ≡ self.entry.k)) }
    {
        match places.read(rest, terms, count, self.k) {
            Ok((day, rest)) => self.sized(&day, rest, printer),
            Err(j) => {
                printer.refusal(Refusal::BadLine, self.line + 1 + j as u64);
                None
            }
        }
    }

    // The same where the acct lines were read, and `rest` follows them: the call is made and printed.
    fn sized(self, day: &Day, rest: &'a [u8], printer: &mut Printer) -> Option<Progress<'a>>
        requires few { length day.now.headings.now ≤ 256 }
        requires counted { self.line + length rest.now + length day.now.headings.now < 2 ^ 63 }
        ensures turn_meets { (g : Register) → Stands g self.entry → TurnMeets (day_due rest.entry.now g (day_brought day.now) self.entry.line (length day.now.headings.now)) printer.old printer.new result }
        ensures goes_on { IfSome result (λ to. (to.rest.now ≡ rest.entry.now) × (to.n ≡ self.entry.n) × (to.k ≡ self.entry.k)) }
    {
        let mut figures = [0; 160];
        let figures = &mut figures[..5 * self.n];
        let Reply { period, outcome } = self.period.day(day, figures);
        let returns = match outcome {
            Ok(returns) => returns,
            Err(refusal) => {
                print_refused_day(printer, refusal, self.line);
                return None;
            }
        };
        print_day(printer, day.terms.number, returns, self.n, figures);
        // each field by its name: `..self` is not there for a struct with a ghost field
        Some(Progress {
            rest,
            line: self.line + 1 + day.headings.len() as u64,
            n: self.n,
            k: self.k,
            period,
        })
    }
}
