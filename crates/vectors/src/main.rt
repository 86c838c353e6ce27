// Runs months one after another. Each stands after a line with the word `month`, its number and how many bytes it has, and its report is
// written after such a line with the word `report`. A text that is not of this form ends the run.
#![tactic(auto)]

ghost use Rattle.std.specs.Prelude.{◌<◌, length, IfOk, IfSome};

use lines::numbers;
use program::read_all;
use report::Printer;
use std::io;
use std::io::Read;

// Writes the report of the month whose heading is at the front of the text, and answers what follows it; or nothing, where there is none
// or a buffer is too short.
fn run_month<'a>(rt: &impl Print, text: &'a [u8], out: &mut [u8]) -> io::Result<Option<&'a [u8]>>
    ensures { IfOk result (λ next. IfSome next (λ rest. length rest.now < length text.now)) }
{
    let Some(line) = numbers::<2>(text, b"month") else {
        return Ok(None);
    };
    let ([number, size], rest) = line; // not in the pattern above: the prover takes no array under `Some`
    let Some((month, next)) = rest.split_at_checked(size as usize) else {
        return Ok(None);
    };
    let end = month::report(month, out);
    let mut heading = [0; 64];
    let mut printer = Printer::new(&mut heading, 0);
    printer.line(b"report", &[number, end as u64]);
    let length = printer.at;
    if heading.len() < length || out.len() < end {
        return Ok(None);
    }
    rt.write_all(&heading[..length])?;
    rt.write_all(&out[..end])?;
    Ok(Some(next))
}

// An array that is lent as one, and not as a slice, brings its length to the proof. Where a read fails, the months read before it are run.
fn run_all<R: Read>(
    rt: &impl Print,
    from: &mut R,
    text: &mut [u8; 524288],
    out: &mut [u8; 262144],
) -> io::Result<()> {
    let end = read_all(from, text).unwrap_or_else(|cut| cut.read);
    let mut rest = &text[..end];
    // no `for`: where a month ends is told by its heading
    while let Some(next) = run_month(rt, rest, out)? {
        rest = next;
    }
    Ok(())
}

fn main(rt: HostRuntime) -> io::Result<()> {
    let mut text = [0; 524288];
    let mut out = [0; 262144];
    run_all(&rt, &mut rt.stdin(), &mut text, &mut out)
}
