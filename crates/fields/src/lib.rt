// A field as a part of the caller's bytes, and a line's fields read in one pass.
#![tactic(auto)]

ghost use Rattle.std.specs.Prelude.{◌≡◌, ◌≤◌, min, false, true, [], length, pos, slice_index_or, position, MatchOption, nat_lt};
ghost use Rattle.std.specs.List.{list_any};
ghost use Rattle.methodology.specs.Text.{fields, kind_of as kind_number};
ghost use Rattle.fields.specs.Fields.{stops, Run, Over, Reads, number_at, value_at, due, row_at, RowReads};

use methodology::{KIND_A, KIND_H, KIND_R, KIND_U};

const TAB: u8 = b'\t';

const LF: u8 = b'\n';

// "Each field is a part of its line": the part up to the next tab.
pub fn field(line: &[u8]) -> &[u8]
    ensures { result.now ≡ slice_index_or (fields line.now) 0 [] }
{
    let end = line.iter().position(|&b| b == TAB).unwrap_or(line.len());
    &line[..end]
}

// The value of the digits that a text begins with, `most` of them at the most, and how many there are.
fn digits(text: &[u8], most: usize) -> (u64, usize)
    requires { (most ≤ length text.now) × (most ≤ 13) }
    ensures run { Run text.now result.1 result.0 }
    ensures over { Over text.now most result.1 }
{
    let mut value = 0;
    for (k, &b) in text[..most].iter().enumerate() {
        if !b.is_ascii_digit() {
            return (value, k);
        }
        value = 10 * value + u64::from(b - b'0');
    }
    (value, most)
}

// The same for 13, or as many bytes as there are. That 13 stands here as a number lets the compiler unroll the loop: 22 million instructions
// for the fields of a full-size month, and else 27.
fn first_digits(text: &[u8]) -> (u64, usize)
    ensures run { Run text.now result.1 result.0 }
    ensures over { Over text.now (min (length text.now) 13) result.1 }
{
    let left = text.len();
    if left < 13 {
        digits(text, left)
    } else {
        digits(text, 13)
    }
}

// "Numbers have 1 to 13 digits, no leading zero (0 itself is good)": the one that a text begins with, if the byte `end` ends it, and the
// rest after that byte, as every reader here answers. `end` is a byte, as the text has it: an enum of tab and LF would turn back into one.
fn natural(text: &[u8], end: u8) -> Option<(u64, &[u8])>
    requires { stops end ≡ true }
    ensures { Reads (number_at end text.now) text.now result }
{
    let (value, size) = first_digits(text);
    if size == text.len() || text[size] != end {
        return None;
    }
    if size == 0 || (text[0] == b'0' && size > 1) {
        return None;
    }
    Some((value, &text[size + 1..]))
}

// "and for NPVs a minus (never -0)": a signed number.
fn signed(text: &[u8], end: u8) -> Option<(i64, &[u8])>
    requires { stops end ≡ true }
    ensures { Reads (value_at false end text.now) text.now result }
{
    let unsigned = text.strip_prefix(b"-");
    let (value, rest) = natural(unsigned.unwrap_or(text), end)?;
    match unsigned {
        None => Some((value as i64, rest)),
        Some(_) if value == 0 => None,
        Some(_) => Some((-(value as i64), rest)),
    }
}

// "A kind is the letter H, R, A or U, else 9."
fn kind_of(field: &[u8]) -> i64
    ensures { result ≡ pos (kind_number field.now) }
{
    match field {
        [b'H'] => KIND_H as i64,
        [b'R'] => KIND_R as i64,
        [b'A'] => KIND_A as i64,
        [b'U'] => KIND_U as i64,
        _ => 9,
    }
}

// The index of the byte that ends a text's first field.
fn end_of(text: &[u8]) -> Option<usize>
    ensures { result ≡ position stops text.now }
{
    text.iter().position(|&b| b == TAB || b == LF)
}

// Whether a byte is not ASCII, in the definition's word. The library's `is_ascii` promises two facts, by cases, and not this word: its proof is
// no plainer.
fn is_foreign(s: &[u8]) -> bool
    ensures { result ≡ list_any (nat_lt 127) s.now }
{
    s.iter().any(|&b| 127 < b)
}

// A kind: any ASCII field.
fn kind(text: &[u8], end: u8) -> Option<(i64, &[u8])>
    requires { stops end ≡ true }
    ensures { Reads (value_at true end text.now) text.now result }
{
    let size = end_of(text)?;
    if text[size] != end {
        return None;
    }
    let field = &text[..size];
    if is_foreign(field) {
        return None;
    }
    Some((kind_of(field), &text[size + 1..]))
}

// A kind, or a signed number. The flag is the definition's (`value_at`): so a field has one contract, and `row` no branch.
fn value(text: &[u8], lettered: bool, end: u8) -> Option<(i64, &[u8])>
    requires { stops end ≡ true }
    ensures { Reads (value_at lettered end text.now) text.now result }
{
    if lettered {
        kind(text, end)
    } else {
        signed(text, end)
    }
}

// The byte that ends a field after which `left` more are due.
fn due(left: usize) -> u8
    ensures value { result ≡ due left }
    ensures stops { stops result ≡ true }
{
    if left == 0 { LF } else { TAB }
}

// Reads the fields up to the line's end into the row, as many as it has places: the field in `kind_place` is a kind, the others are signed
// numbers. It answers the rest after the LF, or nothing where the fields are not so.
pub fn row<'a>(text: &'a [u8], kind_place: Option<usize>, row: &mut [i64]) -> Option<&'a [u8]>
    ensures { RowReads (row_at kind_place 0 (length row.old) text.now) (length row.old) text.now row.new result }
{
    let count = row.len();
    // No field's where none is a kind. Compared as an Option it takes seven instructions more at each field.
    let kind_place = kind_place.unwrap_or(count);
    let mut rest = text;
    for (j, place) in row.iter_mut().enumerate() {
        let (read, after) = value(rest, j == kind_place, due(count - j - 1))?;
        *place = read;
        rest = after;
    }
    Some(rest)
}
