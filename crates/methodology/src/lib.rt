// The types that the definitions in specs/ share with the code of the crates that use this one.
#![tactic(auto)]

ghost use Rattle.std.specs.Prelude.{◌≡◌};
ghost use Rattle.methodology.specs.RowNumbers.{row_number, row_index};

// What an opening brings. "A period has n members, numbered 1 to n (1 to 32), and k stress scenarios (1 to 16). Each member has a group
// number, 0 to 32", and "a first and a last day" (document 02, Change 7). In a call each of these is a list of any length; a period keeps it in
// 32 places, with 0 past the last: a call may not fail for want of memory, so it asks for none. The limits are no part of the type, since the
// definitions share it and take what rows 1 and 10 refuse: who needs one asks for it.
#[derive(Clone, Copy, Debug, PartialEq, Eq)]
pub struct Opening {
    pub n: u64,
    pub k: u64,
    pub groups: [u64; 32],
    pub firsts: [u64; 32],
    pub lasts: [u64; 32],
}

// What a day brings beside its accounts.
#[derive(Clone, Copy, Debug, PartialEq, Eq)]
pub struct DayTerms {
    pub number: u64,
}

// What names an account of a day: its member, its account number and its kind. The fields take any number, since a wrong one is an answer
// (row 5 of the refusal table) and nothing that a caller must rule out.
#[derive(Clone, Copy, Debug, PartialEq, Eq)]
pub struct Heading {
    pub member: u64,
    pub number: u64,
    pub kind: u64,
}

impl Heading {
    // Of nobody, in the definition's word: it stands before a day's first.
    pub const NOBODY: Heading = Heading {
        member: 0,
        number: 0,
        kind: 0,
    };
}

// The kinds, by document 01's numbers: house; client with a replacement member appointed; client that is an Affiliate; client with no such
// appointment. The last is the greatest known one. Constants and no enum: a heading's kind is any number, and an enum would turn back into one
// wherever it is stored or compared.
pub const KIND_H: u64 = 0;

pub const KIND_R: u64 = 1;

pub const KIND_A: u64 = 2;

pub const KIND_U: u64 = 3;

// A day as a call brings it: its terms, and its accounts in four lent slices. "The headings of a day's accounts (member, account number, kind)
// come as a lent slice of records [..]; the NPVs come as one lent slice of signed 64-bit numbers [..]; margins and extras come in two
// further slices, one number an account."
#[derive(Clone, Copy)]
pub struct Day<'a> {
    pub terms: DayTerms,
    pub headings: &'a [Heading],
    pub npvs: &'a [i64],
    pub margins: &'a [u64],
    pub extras: &'a [u64],
}

// A period is fresh, open or closed.
#[derive(Clone, Copy, Debug, PartialEq, Eq)]
pub enum Status {
    Fresh,
    Open,
    Closed,
}

// The rows of the refusal table, of which 9 is met by a text alone. Rows 5 and 6 have the index of the first bad account, row 10 the number of
// the first bad member.
#[derive(Clone, Copy, Debug, PartialEq, Eq)]
pub enum Refusal {
    BadOpening,
    OutOfTurn,
    BadDayNumber,
    BadLengths,
    BadHeading(u64),
    BadAmount(u64),
    BadLine,
    BadPresence(u64),
}

impl Refusal {
    // The number that document 01's table returns for the row. Numbers 7 and 8 no longer occur (document 02, Changes 4 and 2).
    pub fn number(self) -> u64
        ensures { result ≡ row_number self }
    {
        match self {
            Refusal::BadOpening => 1,
            Refusal::OutOfTurn => 2,
            Refusal::BadDayNumber => 3,
            Refusal::BadLengths => 4,
            Refusal::BadHeading(_) => 5,
            Refusal::BadAmount(_) => 6,
            Refusal::BadLine => 9,
            Refusal::BadPresence(_) => 10,
        }
    }

    // The index that the row has beside it, if it has one; in row 10 the member's number.
    pub fn index(self) -> Option<u64>
        ensures { result ≡ row_index self }
    {
        match self {
            Refusal::BadHeading(index) | Refusal::BadAmount(index) | Refusal::BadPresence(index) =>
                Some(index),
            _ => None,
        }
    }
}
