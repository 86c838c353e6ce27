// The lines of a month's text, each read in one pass where it stands.
#![tactic(auto)]

ghost use Rattle.std.specs.Prelude.{◌≡◌, false, true, ◌+◌, ◌-◌, ◌≤◌, ◌<◌, length, MatchOption, if◌then◌else◌};
ghost use Rattle.numbers.specs.Signed.{◌⁺};
ghost use Rattle.methodology.specs.Text.{LF, numbers_after, account_of};
ghost use Rattle.methodology.specs.Lines.{after, line_read};
ghost use Rattle.lines.specs.Forms.{not_letters, line_row, is_negative, npvs_in, account_line};

use fields::{field, row};
use methodology::Heading;

// What an account's line brings beside its NPVs.
#[derive(Clone, Copy, Debug, PartialEq, Eq)]
pub struct AccountTerms {
    pub heading: Heading,
    pub margin: u64,
    pub extra: u64,
}

// "At most 512 bytes before it".
const MOST_BYTES: usize = 512;

// Reads the line that a text begins with, its word and then as many values as the row has places, of which the one in `kind_place` is a kind.
// It answers the rest after the LF, or nothing where the line is not so.
fn line<'a>(
    text: &'a [u8],
    word: &[u8],
    kind_place: Option<usize>,
    values: &mut [i64],
) -> Option<&'a [u8]>
    requires word_value { not_letters word.now ≡ false }
    requires values_nonzero { 0 < length values.old }
    ensures { let read = line_row word.now kind_place (length values.old) text.now in MatchOption result (read ≡ None) (λ rest. (read ≡ Some values.new) × (rest.now ≡ after LF text.now)) }
{
    // The first word is a field and compared whole, the forms that document 01 names: `strip_prefix` would not cut it out.
    if field(text) != word || text.len() <= word.len() {
        return None;
    }
    let rest = row(&text[word.len() + 1..], kind_place, values)?;
    if text.len() - rest.len() > MOST_BYTES + 1 {
        return None;
    }
    Some(rest)
}

// A number that may have no minus.
fn natural(z: i64) -> Option<u64>
    ensures { result ≡ (if is_negative z then None else Some (z ⁺)) }
{
    u64::try_from(z).ok()
}

// "The first word is compared whole": a line of a word and N numbers, and the rest after its LF.
pub fn numbers<'a, const N: usize>(text: &'a [u8], word: &[u8]) -> Option<([u64; N], &'a [u8])>
    requires word_value { not_letters word.now ≡ false }
    requires count_nonzero { 0 < N }
    ensures { let read = line_read (numbers_after word.now N) text.now in MatchOption result (read ≡ None) (λ r. (read ≡ Some r.0) × (r.1.now ≡ after LF text.now)) }
{
    let mut values = [0i64; N];
    let rest = line(text, word, None, &mut values)?;
    let mut numbers = [0u64; N];
    // By an index into the values: over a zip that writes (tried) the proof does not close.
    for (j, number) in numbers.iter_mut().enumerate() {
        *number = natural(values[j])?;
    }
    Some((numbers, rest))
}

// "member, account, kind, base, margin, extra, stress 1 to k": an account's line, and the rest after its LF. The k + 6 values are lent, as one
// slice since k is the caller's, and its NPVs, the base and the stresses, are left in them.
pub fn account<'a>(text: &'a [u8], values: &mut [i64]) -> Option<(AccountTerms, &'a [u8])>
    requires { 6 < length values.old }
    ensures { let read = line_read (account_of (length values.old - 6)) text.now in MatchOption result (read ≡ None) (λ r. (read ≡ Some (account_line r.0 (npvs_in values.new))) × (r.1.now ≡ after LF text.now)) }
{
    let rest = line(text, b"acct", Some(2), values)?;
    let member = natural(values[0])?;
    let number = natural(values[1])?;
    let kind = values[2] as u64; // never negative
    let margin = natural(values[4])?;
    let extra = natural(values[5])?;
    let heading = Heading {
        member,
        number,
        kind,
    };
    Some((
        AccountTerms {
            heading,
            margin,
            extra,
        },
        rest,
    ))
}
