// The report's lines, printed into a lent buffer.
#![tactic(auto)]

ghost use Rattle.std.specs.Prelude.{◌≡◌, ◌+◌, ◌*◌, ◌≤◌, length};

use itoa::Buffer;
use methodology::Refusal;

// Prints into a lent buffer: `at` is the index after what is printed. Nothing asks for room: what finds none is left out, and `at` is then one
// above the buffer's length. A number and no Option: what comes after goes by it in any case, without a test at each of a line's parts.
#[derive(Drop)]
pub struct Printer<'a> {
    pub out: &'a mut [u8],
    pub at: usize,
    ghost within: { at ≤ length out.now + 1 },
}

impl<'a> Printer<'a> {
    ghost use mathlib.Core.List.{[], ◌∷◌};
    ghost use Rattle.std.specs.Prelude.{min};
    ghost use Rattle.methodology.specs.Text.{tab, decimal, printed, refused_line, rows};
    ghost use Rattle.report.specs.Prints.{Prints};

    // From an index of the buffer on: one past its end stands for every index further on.
    pub fn new(out: &'a mut [u8], at: usize) -> Printer<'a>
        ensures at { result.at ≡ min at (length out.entry.now + 1) }
        ensures buffer { (result.out.now ≡ out.entry.now) × (result.out.ghost_name ≡ out.entry.ghost_name) }
    {
        let at = at.min(out.len() + 1);
        Printer { out, at }
    }

    pub fn bytes(&mut self, bytes: &[u8])
        ensures { Prints self.old bytes.now self.new }
    {
        let room = self.out.len();
        if room < self.at {
            return;
        }
        let count = bytes.len().min(room - self.at);
        let end = self.at + count;
        self.out[self.at..end].copy_from_slice(&bytes[..count]);
        self.at = if count < bytes.len() { room + 1 } else { end };
    }

    // A tab and a number.
    fn field(&mut self, x: u64)
        ensures { Prints self.old (tab ∷ decimal x) self.new }
    {
        let mut buffer = Buffer::new();
        let digits = buffer.format(x).as_bytes();
        self.bytes(b"\t");
        self.bytes(digits);
    }

    // A line's numbers, and its end.
    fn numbers(&mut self, numbers: &[u64])
        ensures { Prints self.old (printed [] numbers.now) self.new }
    {
        for &x in numbers {
            self.field(x);
        }
        self.bytes(b"\n");
    }

    // A line with this leading word.
    pub fn line(&mut self, word: &[u8], numbers: &[u64])
        ensures { Prints self.old (printed word.now numbers.now) self.new }
    {
        self.bytes(word);
        self.numbers(numbers);
    }

    // A line with a number before the others.
    fn row(&mut self, word: &[u8], first: u64, numbers: &[u64])
        ensures { Prints self.old (printed word.now (first ∷ numbers.now)) self.new }
    {
        self.bytes(word);
        self.field(first);
        self.numbers(numbers);
    }

    // A line for each of n members with its stretch of the figures. By n and no `chunks_exact(width)`, which would ask for a width above 0.
    pub fn rows(&mut self, word: &[u8], width: usize, n: usize, figures: &[u64])
        requires n_in_bounds { width * n ≤ length figures.now }
        ensures { Prints self.old (rows word.now width n figures.now) self.new }
    {
        for m in 0..n {
            let stretch = &figures[width * m..][..width];
            self.row(word, m as u64 + 1, stretch);
        }
    }

    // "A refusal prints `refused`, number, line (from 1)".
    pub fn refusal(&mut self, refusal: Refusal, line: u64)
        ensures { Prints self.old (refused_line refusal line) self.new }
    {
        let numbers = [refusal.number(), line];
        self.line(b"refused", &numbers);
    }
}
