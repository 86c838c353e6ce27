// A period: opened, sized day by day, closed. Each call takes it and hands it back inside its reply.
#![tactic(auto)]

ghost use Rattle.std.specs.Prelude.{◌≡◌, map, ◌≤◌, ltb, length, get_or};
ghost use Rattle.std.specs.Result.{is_ok};
ghost use Rattle.std.specs.List.{list_any, range_with_len};
ghost use Rattle.methodology.specs.Brought.{day_brought};
ghost use Rattle.methodology.specs.Refusals.{opening_rows, is_open};
ghost use Rattle.period.specs.Reading.{brought, answer_of, opening_returned, day_returned, closing_returned};
ghost use Rattle.period.specs.Calls.{without_days, fresh_period, held_by, in_range, status_of, OpeningMeets, output_row, DayMeets, ClosingMeets};

use methodology::{Day, Opening, Refusal, Status};
use validation::limits::opening_rows;

// What the calls of a period have left. Its fields are private: a period is a fresh one, or one that calls returned. The lists of the
// opening that is held stand in 32 places each, with 0 past the last. The status stands beside the opening, as in document 01's register: a closed
// period is "otherwise as before".
#[derive(Clone, Copy)]
pub struct Period {
    status: Status,
    held: Opening,
    accrued: Accrued,
}

// What the days accepted since the last accepted opening come to: `last` is the last accepted day number, `days` is D, `highest` is M, and
// member i + 1 has the sum of its shares in place i; past member n stands 0. Before a day all are 0, as document 01 has them. D and the sums
// leave days without losses out (document 02, Change 4).
#[derive(Clone, Copy)]
pub struct Accrued {
    last: u64,
    days: u64,
    highest: u64,
    sums: [u64; 32],
}

// What an accepted day returns: "T and Max EUL".
#[derive(Clone, Copy, Debug, PartialEq, Eq)]
pub struct DayReturns {
    pub total: u64,
    pub max: u64,
}

// What an accepted closing returns: "D, M and the total funded".
#[derive(Clone, Copy, Debug, PartialEq, Eq)]
pub struct ClosingReturns {
    pub days: u64,
    pub highest: u64,
    pub funds: u64,
}

// What a call says, T where it is accepted, beside the period that it leaves. `answer_of` in specs/Reading.antt gives document 01's
// answer for it.
#[derive(Clone, Copy)]
pub struct Reply<T> {
    pub period: Period,
    pub outcome: Result<T, Refusal>,
}

// No day's total, and so no Max EUL, is above this: 256 accounts of at most 3 · 10^12 each.
const GREATEST_TOTAL: u64 = 768_000_000_000_000;

impl Accrued {
    // Whether any sum is above `most`.
    fn sums_above(&self, most: u64) -> bool
        ensures { result ≡ list_any (ltb most) self.now.sums }
    {
        self.sums.iter().any(|&sum| most < sum)
    }
}

// A list in 32 places, with 0 past its last number.
fn places(list: &[u64]) -> [u64; 32]
    requires { length list.now ≤ 32 }
    ensures { result ≡ map (λ i. get_or list.now i 0) (range_with_len 0 32) }
{
    let mut all = [0; 32];
    all[..list.len()].copy_from_slice(list);
    all
}

impl Period {
    pub fn fresh() -> Period
        ensures { result ≡ fresh_period }
    {
        let no_opening = Opening {
            n: 0,
            k: 0,
            groups: [0; 32],
            firsts: [0; 32],
            lasts: [0; 32],
        };
        Period::without_days(Status::Fresh, no_opening)
    }

    // A period with this opening and no day: "M, D, the last accepted day number and all sums 0".
    fn without_days(status: Status, held: Opening) -> Period
        ensures { result ≡ without_days status held }
    {
        Period {
            status,
            held,
            accrued: Accrued {
                last: 0,
                days: 0,
                highest: 0,
                sums: [0; 32],
            },
        }
    }

    // Whether rows 1 and 10 let the opening pass that it holds. n comes first: a greater one than 32 has no lists in 32 places.
    #[tactic(auto, using(crate::proofs::InRange::many_members))]
    fn held_passes(&self) -> bool
        ensures { result ≡ is_ok (opening_rows (held_by self.now)) }
    {
        let held = &self.held;
        if held.n > 32 {
            return false;
        }
        let n = held.n as usize;
        opening_rows(
            held.n,
            held.k,
            &held.groups[..n],
            &held.firsts[..n],
            &held.lasts[..n],
        )
        .is_ok()
    }

    // Whether every field is in the range of an open period. A test and no ghost field: a call answers every period, whatever its fields hold.
    #[tactic(auto, unfolding(crate::specs::Calls::in_range))]
    fn in_range(&self) -> bool
        ensures { result ≡ in_range self.now }
    {
        self.accrued.last <= 31
            && self.accrued.days <= self.accrued.last
            && self.accrued.highest <= GREATEST_TOTAL
            && self.held_passes()
            && !self.accrued.sums_above(self.accrued.days * quotient::SCALE)
    }

    // Whether it counts as open: a period that is out of range does not. No calls from a fresh one lead to an open one that is.
    fn is_open(&self) -> bool
        ensures { result ≡ is_open (status_of self.now) }
    {
        self.status == Status::Open && self.in_range()
    }

    // The first rows of a day or a closing, in their order: 2, 4. Its output is `room` long, and `width` numbers a member are due.
    fn output_row(&self, width: u64, room: usize) -> Result<(), Refusal>
        requires { width ≤ 5 }
        ensures { result ≡ output_row self.now width room }
    {
        if !self.is_open() {
            return Err(Refusal::OutOfTurn);
        }
        if room as u64 != width * self.held.n {
            return Err(Refusal::BadLengths);
        }
        Ok(())
    }

    // What `opening` does to a period.
    fn open(
        &mut self,
        n: u64,
        k: u64,
        groups: &[u64],
        firsts: &[u64],
        lasts: &[u64],
    ) -> Result<(), Refusal>
        ensures { OpeningMeets self.old (brought n k groups.now firsts.now lasts.now) (answer_of opening_returned result) self.new }
    {
        if self.is_open() {
            return Err(Refusal::OutOfTurn);
        }
        opening_rows(n, k, groups, firsts, lasts)?;
        let opening = Opening {
            n,
            k,
            groups: places(groups),
            firsts: places(firsts),
            lasts: places(lasts),
        };
        *self = Period::without_days(Status::Open, opening);
        Ok(())
    }

    // What `day` does to a period: it takes in the day's number and the Max EUL that it reports, which M is then; where it has losses D is one
    // more, and the sums take in the shares that it wrote.
    fn size(&mut self, day: &Day, out: &mut [u64]) -> Result<DayReturns, Refusal>
        ensures { DayMeets self.old (day_brought day.now) out.old (answer_of day_returned result) self.new out.new }
    {
        self.output_row(5, out.len())?;
        validation::day_rows(self.held, self.accrued.last, day)?;
        let figures = exposure::day::day_figures(self.held, day);
        let total = figures.losses.total;
        let n = self.held.n as usize;
        let reported = self.accrued.highest.max(figures.top); // the highest so far
        fund::write_dailies(&figures.losses.each[..n], reported, total, out);
        self.accrued.last = day.terms.number;
        self.accrued.highest = reported;
        if total > 0 {
            self.accrued.days += 1;
            self.accrued.sums = fund::with_shares(self.accrued.sums, n, out);
        }
        Ok(DayReturns {
            total,
            max: reported,
        })
    }

    // What `closing` does to a period.
    fn close(&mut self, out: &mut [u64]) -> Result<ClosingReturns, Refusal>
        ensures { ClosingMeets self.old out.old (answer_of closing_returned result) self.new out.new }
    {
        self.output_row(3, out.len())?;
        let n = self.held.n as usize;
        let days = self.accrued.days;
        let highest = self.accrued.highest;
        let funds = fund::write_contributions(&self.accrued.sums[..n], highest, days, out);
        self.status = Status::Closed;
        Ok(ClosingReturns {
            days,
            highest,
            funds,
        })
    }

    // The three calls, in document 01's form: "as mut self methods on the period struct, returned inside the answer".

    // "Opening takes n, k and groups, and is accepted when fresh or closed, with M, D, the last accepted day number and all sums 0." It "now
    // takes a first and a last day for each member" (document 02, Change 7).
    pub fn opening(
        mut self,
        n: u64,
        k: u64,
        groups: &[u64],
        firsts: &[u64],
        lasts: &[u64],
    ) -> Reply<()>
        ensures { OpeningMeets self (brought n k groups.now firsts.now lasts.now) (answer_of opening_returned result.outcome) result.period }
    {
        let outcome = self.open(n, k, groups, firsts, lasts);
        Reply {
            period: self,
            outcome,
        }
    }

    // "A day writes 5 numbers a member (e, share, value, reserve, estimate), each member's five into its own stretch of the lent buffer, and
    // returns T and Max EUL."
    pub fn day(mut self, day: &Day, out: &mut [u64]) -> Reply<DayReturns>
        ensures { DayMeets self (day_brought day.now) out.old (answer_of day_returned result.outcome) result.period out.new }
    {
        let outcome = self.size(day, out);
        Reply {
            period: self,
            outcome,
        }
    }

    // "Closing writes 3 a member (raw, funded, unfunded) and returns D, M and the total funded; the period is then closed and otherwise as
    // before."
    pub fn closing(mut self, out: &mut [u64]) -> Reply<ClosingReturns>
        ensures { ClosingMeets self out.old (answer_of closing_returned result.outcome) result.period out.new }
    {
        let outcome = self.close(out);
        Reply {
            period: self,
            outcome,
        }
    }
}
