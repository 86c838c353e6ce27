// A day's acct lines, read one after another into places for its accounts.
#![tactic(auto)]

use lines::account;
use methodology::{Day, DayTerms, Heading};

// "A day's acct lines hold at most 65,536 bytes with their LFs".
const MOST_BYTES: usize = 65_536;

// Places for a day's accounts: 256 at most, each with 17 NPVs at most, which stand one after another. Four arrays and no array of accounts:
// the document's named form, in which they are lent to a day.
#[derive(Drop)]
pub struct Places {
    headings: [Heading; 256],
    npvs: [i64; 4352],
    margins: [u64; 256],
    extras: [u64; 256],
}

impl Places {
    ghost use Rattle.std.specs.Prelude.{◌≡◌, ◌≤◌, length, MatchResult};
    ghost use Rattle.methodology.specs.Brought.{day_brought};
    ghost use Rattle.accounts.specs.AcctLines.{cleared, AllRead, FirstBad};

    pub fn empty() -> Places
        ensures { result ≡ cleared }
    {
        Places {
            headings: [Heading::NOBODY; 256],
            npvs: [0; 4352],
            margins: [0; 256],
            extras: [0; 256],
        }
    }

    // Reads the acct lines of `count` accounts, k stresses each, from the front of the text on. It answers the day that they make, and what
    // follows them, or the first bad line, counted from 0.
    pub fn read<'a>(
        &mut self,
        text: &'a [u8],
        terms: DayTerms,
        count: usize,
        k: usize,
    ) -> Result<(Day<'_>, &'a [u8]), usize>
        requires { (1 ≤ count) × (count ≤ 256) × (1 ≤ k) × (k ≤ 16) }
        ensures { MatchResult result (λ r. AllRead text.now terms count k (day_brought r.0) r.1.now) (λ j. FirstBad text.now count k j) }
    {
        let width = k + 1;
        let mut rest = text;
        // By an index, which serves all four arrays: their places zipped would nest three deep, and no proof knows what is written through a zip.
        for j in 0..count {
            let mut values = [0; 22]; // for 16 stresses
            let values = &mut values[..k + 6];
            let Some((line, next)) = account(rest, values) else {
                return Err(j);
            };
            if text.len() - next.len() > MOST_BYTES {
                return Err(j);
            }
            let from = j * width;
            let npvs = &mut self.npvs[from..from + width];
            npvs[0] = values[3];
            npvs[1..].copy_from_slice(&values[6..]);
            self.headings[j] = line.heading;
            self.margins[j] = line.margin;
            self.extras[j] = line.extra;
            rest = next;
        }
        let day = Day {
            terms,
            headings: &self.headings[..count],
            npvs: &self.npvs[..count * width],
            margins: &self.margins[..count],
            extras: &self.extras[..count],
        };
        Ok((day, rest))
    }
}
