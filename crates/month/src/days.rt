// The days of a month and its end.
ghost use Rattle.std.specs.Prelude.{◌+◌, ◌<◌, length, IfSome};
ghost use Rattle.methodology.specs.Register.{Register};
ghost use Rattle.methodology.specs.Text.{LF, split, after_end, report_from};
ghost use Rattle.report.specs.Prints.{Prints};
ghost use Rattle.day.specs.Turns.{days_due, Stands, TurnMeets};

use accounts::Places;
use answers::print_fund;
use day::Progress;
use lines::numbers;
use methodology::{DayTerms, Refusal};
use period::Reply;
use report::Printer;
use validation::limits::count_outside;

// The report from the end line on, whose `rest` is there: nothing follows, and the closing call is made.
fn end(from: Progress, rest: &[u8], printer: &mut Printer)
    ensures { (g : Register) → Stands g from.entry → Prints printer.old (report_from (from.entry.line + 1) (split LF rest.now) (after_end g from.entry.line)) printer.new }
{
    if !rest.is_empty() {
        return printer.refusal(Refusal::BadLine, from.line + 1);
    }
    let mut figures = [0; 96];
    let figures = &mut figures[..3 * from.n];
    let Reply { outcome, .. } = from.period.closing(figures);
    match outcome {
        Ok(returns) => print_fund(printer, returns, from.n, figures),
        Err(refusal) => printer.refusal(refusal, from.line),
    }
}

// One turn: the end line and what follows, or a day, for which places are lent. A refusal is printed where it is met: with `?` it would take its
// line along, and the end line would still be a third way out.
fn turn<'a>(from: Progress<'a>, places: &mut Places, printer: &mut Printer) -> Option<Progress<'a>>
    ensures turn_meets { (g : Register) → Stands g from.entry → TurnMeets (days_due from.entry.rest.now from.entry.line g) printer.old printer.new result }
    ensures further { IfSome result (λ to. length to.rest.now < length from.entry.rest.now) }
{
    if let Some(rest) = from.rest.strip_prefix(b"end\n") {
        end(from, rest, printer);
        return None;
    }
    let Some(line) = numbers::<2>(from.rest, b"day") else {
        printer.refusal(Refusal::BadLine, from.line);
        return None;
    };
    let ([number, count], rest) = line; // not in the pattern above: the prover takes no array under `Some`
    if count_outside(count) {
        printer.refusal(Refusal::BadLengths, from.line);
        return None;
    }
    from.take_day(DayTerms { number }, count as usize, rest, places, printer)
}

// The report from `from` on: days, and the end. All days are read into the same places, which are cleared once.
pub fn days(mut from: Progress, printer: &mut Printer)
    ensures { (g : Register) → Stands g from.entry → Prints printer.old (days_due from.entry.rest.now from.entry.line g) printer.new }
{
    let mut places = Places::empty();
    // no `for`: whether it goes on is what a turn answers
    while let Some(to) = turn(from, &mut places, printer) {
        from = to;
    }
}
