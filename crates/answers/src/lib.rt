// What a call says, as the report prints it. An accepted opening prints nothing, and what refuses a closing names the call's own line, so
// `Printer::refusal` prints it.
#![tactic(auto)]

mod totals;

ghost use Rattle.std.specs.Prelude.{◌*◌, ◌≤◌, ◌<◌, ◌^◌, length};
ghost use Rattle.std.specs.List.{AllByRecursion};
ghost use Rattle.methodology.specs.RowNumbers.{row_index};
ghost use Rattle.methodology.specs.Text.{refused_line, opening_line_named, line_named, totals, day_lines, fund_lines};
ghost use Rattle.report.specs.Prints.{Prints};
ghost use Rattle.period.specs.Reading.{day_returned, closing_returned};

use crate::totals::day_totals;
use methodology::Refusal;
use period::{ClosingReturns, DayReturns};
use report::Printer;

// The line of a refused opening, whose own line is the first: row 10 names a member's, by its number.
#[tactic(auto, unfolding(methodology::specs::Text::opening_line_named))]
pub fn print_refused_opening(printer: &mut Printer, refusal: Refusal)
    requires { opening_line_named (row_index refusal) < 2 ^ 64 }
    ensures { Prints printer.old (refused_line refusal (opening_line_named (row_index refusal))) printer.new }
{
    let line = match refusal.index() {
        None => 1,
        Some(member) => 1 + member,
    };
    printer.refusal(refusal, line);
}

// The lines of an accepted day, of its number, what it returned, and the figures that it wrote for n members: "After a day's daily lines the
// report prints `total`, then the sums". n stands beside the figures, as in `Printer::rows`.
pub fn print_day(printer: &mut Printer, number: u64, returns: DayReturns, n: usize, figures: &[u64])
    requires n_in_bounds { 5 * n ≤ length figures.now }
    requires every { AllByRecursion (λ x. x < 2 ^ 64) (totals n figures.now) }
    ensures { Prints printer.old (day_lines number n (day_returned returns) figures.now) printer.new }
{
    let sums = day_totals(n, figures);
    printer.line(b"day", &[number, returns.total, returns.max]);
    printer.rows(b"daily", 5, n, figures);
    printer.line(b"total", &sums);
}

// The line of a refused day, whose own line is `line`: rows 5 and 6 name one after it by their index.
#[tactic(auto, unfolding(methodology::specs::Text::line_named))]
pub fn print_refused_day(printer: &mut Printer, refusal: Refusal, line: u64)
    requires { line_named line (row_index refusal) < 2 ^ 64 }
    ensures { Prints printer.old (refused_line refusal (line_named line (row_index refusal))) printer.new }
{
    let named = match refusal.index() {
        None => line,
        Some(index) => line + 1 + index,
    };
    printer.refusal(refusal, named);
}

// The lines of an accepted closing, of what it returned and wrote.
pub fn print_fund(printer: &mut Printer, returns: ClosingReturns, n: usize, figures: &[u64])
    requires { 3 * n ≤ length figures.now }
    ensures { Prints printer.old (fund_lines n (closing_returned returns) figures.now) printer.new }
{
    printer.line(b"fund", &[returns.days, returns.highest, returns.funds]);
    printer.rows(b"contribution", 3, n, figures);
}
