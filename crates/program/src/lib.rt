// The program: reads a month's text and writes its report to standard output. Where a read or a write fails it says so on standard error, so
// that no part of a text passes for the whole. The text comes from a reader that the caller names: standard input, or in a test one that fails.
#![tactic(auto)]

ghost use Rattle.std.specs.Prelude.{List, ◌≡◌, ℕ, ◌≤◌, ◌<◌, length, take, IfOk, IfErr, is_err};
ghost use Rattle.std.specs.Io.KnownBytes.{Consumes, IsAtEnd};
ghost use Rattle.methodology.specs.Text.{report_of};

use std::io::Read;

// The most that one read asks for, and what a pipe holds. A file too is then read in pieces, so that the gate, which runs the programs on
// files, sees a piece that is lost or misplaced.
const PIECE: usize = 65_536;

// The room for a text: what follows its first 2,162,688 bytes changes no report. And the room for a report, which fits.
const TEXT_ROOM: usize = 2_162_688;

const REPORT_ROOM: usize = 147_456;

// A read that failed, and how many bytes were read before it.
#[derive(Clone, Copy, Debug)]
pub struct Cut {
    pub read: usize,
}

// Reads until the input ends or the buffer is full, and answers how many bytes stand there. A read that fails is an error: it does not pass
// for the input's end.
pub fn read_all<R: Read>(from: &mut R, text: &mut [u8]) -> Result<usize, Cut>
    ensures bound { IfOk result (λ n. n ≤ length text.new) }
    ensures bytes { IfOk result (λ n. Consumes (R.remaining from.old) (R.remaining from.new) (take n text.new)) }
    ensures end { IfOk result (λ n. n < length text.new → IsAtEnd (R.remaining from.new)) }
    ensures cut_bound { IfErr result (λ cut. cut.read ≤ length text.new) }
    ensures cut_bytes { IfErr result (λ cut. Consumes (R.remaining from.old) (R.remaining from.new) (take cut.read text.new)) }
{
    let mut done = 0;
    // no `for`: how far a turn comes is told by its read
    while done < text.len() {
        let end = done.saturating_add(PIECE).min(text.len());
        let Ok(count) = from.read(&mut text[done..end]) else {
            return Err(Cut { read: done });
        };
        if count == 0 {
            break;
        }
        done += count;
    }
    Ok(done)
}

// The report of an input whose first `TEXT_ROOM` bytes, or all if it is shorter, are the first of the buffer: how many bytes it has. Where a
// read failed there is none, which is promised here since `answer` prints, and no contract speaks of that.
fn report_of(text: &[u8], read: Result<usize, Cut>, out: &mut [u8]) -> Result<usize, Cut>
    requires { IfOk read (λ n. n ≤ length text.now) × (length text.now ≡ TEXT_ROOM) × (length out.old ≡ REPORT_ROOM) }
    ensures failed { is_err result ≡ is_err read }
    ensures out_after { IfOk read (λ n. IfOk result (λ end. (all : List ℕ) → take TEXT_ROOM all ≡ take n text.now → take end out.new ≡ report_of all)) }
    ensures upper_bound { IfOk result (λ end. end ≤ length out.new) }
{
    let n = read?;
    Ok(month::report(&text[..n], out))
}

// Writes the report of what the reader gives. An array that is lent as one, and not as a slice, brings its length to the proof.
fn answer<R: Read>(
    rt: &(impl Print + Eprint),
    from: &mut R,
    text: &mut [u8; TEXT_ROOM],
    out: &mut [u8; REPORT_ROOM],
) {
    let read = read_all(from, text);
    let Ok(end) = report_of(text, read, out) else {
        let _ = rt.eprint("sizing: standard input cannot be read\n");
        return;
    };
    if rt.write_all(&out[..end]).is_err() {
        let _ = rt.eprint("sizing: standard output cannot be written\n");
    }
}

pub fn run<R: Read>(rt: &(impl Print + Eprint), from: &mut R) {
    let mut text = [0; TEXT_ROOM];
    let mut out = [0; REPORT_ROOM];
    answer(rt, from, &mut text, &mut out);
}
