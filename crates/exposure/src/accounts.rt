// A day's accounts, or a part of them, as the refusal table leaves them: in four slices, k + 1 NPVs an account.
ghost use Rattle.std.specs.Prelude.{◌≤◌};
ghost use Rattle.validation.specs.Slices.{Within, Rising};

use crate::account::{Scenario, eul};
use crate::member::Tally;
use methodology::{Day, Heading};

#[derive(Clone, Copy)]
pub struct Accounts<'a> {
    k: usize,
    headings: &'a [Heading],
    npvs: &'a [i64],
    margins: &'a [u64],
    extras: &'a [u64],
    ghost within: { Within k headings.now npvs.now margins.now extras.now },
    ghost few: { k ≤ 16 },
}

impl<'a> Accounts<'a> {
    ghost use Rattle.std.specs.Prelude.{◌≡◌, ◌==◌, not, ◌+◌, ◌≤◌, length, nat_abs, unwrap_or};
    ghost use Rattle.std.specs.List.{between, position};
    ghost use Rattle.methodology.specs.Account.{accounts, eul_under};
    ghost use Rattle.methodology.specs.Brought.{day_brought};
    ghost use Rattle.methodology.specs.Member.{accounts_of, member_eul};
    ghost use Rattle.exposure.specs.Scenario.{stress_read, eul_by};
    ghost use Rattle.exposure.specs.MemberCut.{from_member};
    ghost use Rattle.exposure.specs.GroupRows.{row_of};
    ghost use Rattle.exposure.specs.AccountsIn.{accounts_in, most_eul, RowIs};

    // All accounts of a day.
    pub fn of_day(k: u64, day: &Day<'a>) -> Accounts<'a>
        requires within { Within k day.now.headings.now day.now.npvs.now day.now.margins.now day.now.extras.now }
        requires few { k ≤ 16 }
        ensures is { (result.k ≡ k) × (accounts_in result ≡ accounts k (day_brought day.now)) }
        ensures rising { Rising day.now.headings.now → Rising result.headings.now }
    {
        Accounts {
            k: k as usize,
            headings: day.headings,
            npvs: day.npvs,
            margins: day.margins,
            extras: day.extras,
        }
    }

    // Those from a to b - 1.
    fn part(&self, a: usize, b: usize) -> Accounts<'a>
        requires { (a ≤ b) × (b ≤ length self.now.headings.now) }
        ensures is { (result.k ≡ self.now.k) × (accounts_in result ≡ between a b (accounts_in self.now)) }
        ensures rising { Rising self.now.headings.now → Rising result.headings.now }
    {
        let width = self.k + 1;
        Accounts {
            k: self.k,
            headings: &self.headings[a..b],
            npvs: &self.npvs[a * width..b * width],
            margins: &self.margins[a..b],
            extras: &self.extras[a..b],
        }
    }

    // The index of the first that is not member m's.
    fn first_other(&self, m: u64) -> Option<usize>
        ensures { result ≡ position (λ h. not (h.member == m)) self.now.headings.now }
    {
        self.headings.iter().position(|heading| heading.member != m)
    }

    // Where no member before m has accounts among them: those of m, and those of all members after it.
    pub fn split(&self, m: u64) -> (Accounts<'a>, Accounts<'a>)
        requires rising { Rising self.now.headings.now }
        requires from { accounts_in self.now ≡ from_member m (accounts_in self.now) }
        ensures own { (result.0.k ≡ self.now.k) × (accounts_in result.0 ≡ accounts_of m (accounts_in self.now)) }
        ensures others { (result.1.k ≡ self.now.k) × (accounts_in result.1 ≡ from_member (m + 1) (accounts_in self.now)) }
        ensures others_rising { Rising result.1.headings.now }
    {
        let end = self.first_other(m).unwrap_or(self.headings.len());
        (self.part(0, end), self.part(end, self.headings.len()))
    }

    // The EUL of a member that has these accounts. Each account's stress row is handed on as a part of the slice.
    pub fn eul(&self, scenario: Scenario) -> i64
        requires { stress_read scenario ≤ self.now.k }
        ensures is { result ≡ member_eul (eul_by self.now.k scenario) (accounts_in self.now) }
        ensures bound { nat_abs result ≤ most_eul }
    {
        let mut tally = Tally::EMPTY;
        let width = self.k + 1;
        // By an index, which serves all four slices: zipped they would nest three deep.
        for (i, heading) in self.headings.iter().enumerate() {
            let at = i * width;
            let fall = scenario.fall(&self.npvs[at..at + width]);
            let own = eul(fall, self.margins[i], self.extras[i]);
            tally = tally.with(heading.kind, own);
        }
        tally.eul()
    }

    // Its EULs by scenario; 0 past the last one.
    pub fn row(&self) -> [i64; 16]
        ensures { RowIs self.now.k (accounts_in self.now) result }
    {
        let mut row = [0; 16];
        for (j, place) in row[..self.k].iter_mut().enumerate() {
            *place = self.eul(Scenario::Under(j + 1));
        }
        row
    }
}
