// The report of a month's text: its lines are read in their order, the calls are made that they ask for, and what they say is printed.
#![tactic(auto)]

mod days;
mod members;

ghost use Rattle.methodology.specs.Text.{report_of};
ghost use Rattle.report.specs.Put.{Put};
ghost use Rattle.report.specs.Prints.{Prints};

use crate::members::from_members;
use lines::numbers;
use methodology::Refusal;
use report::Printer;
use validation::limits::{k_outside, n_outside};

// Prints the report of any text.
fn print(text: &[u8], printer: &mut Printer)
    ensures { Prints printer.old (report_of text.now) printer.new }
{
    let Some(line) = numbers::<2>(text, b"period") else {
        return printer.refusal(Refusal::BadLine, 1);
    };
    let ([n, k], rest) = line; // not in the pattern above: the prover takes no array under `Some`
    if n_outside(n) || k_outside(k) {
        return printer.refusal(Refusal::BadOpening, 1);
    }
    from_members(rest, n, k, printer)
}

// The report of any text, for any length of the buffer: `Put` says which bytes stand in it, and how many.
pub fn report(text: &[u8], out: &mut [u8]) -> usize
    ensures { Put out.old 0 (report_of text.now) out.new result }
{
    let mut printer = Printer::new(out, 0);
    print(text, &mut printer);
    printer.at
}
