// One list of calls on a period, from a fresh one on: each call gets the period that the one before returned. It shows every row of
// document 01's refusal table that a call can meet, by each of its conditions, and each two rows that follow one another in an order of
// precedence; among them accepted calls, whose figures show that a refused one left nothing behind; and nine months, eight of them opened
// after a closing. Two of these have not begun, and one has days without losses alone. In the last one a member joins and one leaves.
//
// A call prints its number and what it says: accepted with its figures, or refused with the row and, in rows 5 and 6, the index, in row 10 the
// member's number. A day and a closing then print the buffer that they were lent, which was filled with 7. The numbers stand at the calls, so
// that a reader finds each in the stored output, which was worked out from the documents, by a recalculation and for calls 31 to 33 by hand,
// not taken from the program.
#![tactic(auto)]

ghost use Rattle.std.specs.Prelude.{◌≤◌, ◌<◌, length, get_or};

use methodology::{Day, DayTerms, Heading, KIND_A, KIND_H, KIND_R, KIND_U, Refusal};
use period::{ClosingReturns, DayReturns, Period, Reply};
use printing::put_rows;
use std::{array, io};

// The limit of an NPV, and of a margin.
const LIMIT: i64 = 1_000_000_000_000;

const MOST: u64 = LIMIT as u64;

// The NPVs of three houses under one scenario, of which the first loses 50, and no margins or extras.
const LOSS: [i64; 6] = [60, 10, 0, 0, 0, 0];

const NONE: [u64; 3] = [0; 3];

fn account(member: u64, number: u64, kind: u64) -> Heading {
    Heading {
        member,
        number,
        kind,
    }
}

fn house(member: u64) -> Heading {
    account(member, 0, KIND_H)
}

// The house accounts of the first members.
fn houses<const N: usize>() -> [Heading; N] {
    array::from_fn(|i| house(i as u64 + 1))
}

// The calls so far: where they print, and the period that the last one returned.
#[derive(Drop)]
struct Calls<'a, P: Print> {
    rt: &'a P,
    period: Period,
}

impl<'a, P: Print> Calls<'a, P> {
    // Prints a call's number and the row that refused it, with its index in rows 5 and 6 and the member's number in row 10.
    fn refused(&self, call: u64, refusal: Refusal) -> io::Result<()> {
        let rt = self.rt;
        let row = refusal.number();
        match refusal.index() {
            None => println!(rt; "{call}\trefused\t{row}"),
            Some(index) => println!(rt; "{call}\trefused\t{row}\tat\t{index}"),
        }
    }

    // Each call prints what it says, and keeps the period that is returned. One function for each: what they return is of another type.
    fn opening_for(
        &mut self,
        call: u64,
        n: u64,
        k: u64,
        groups: &[u64],
        firsts: &[u64],
        lasts: &[u64],
    ) -> io::Result<()> {
        let rt = self.rt;
        let Reply { period, outcome } = self.period.opening(n, k, groups, firsts, lasts);
        self.period = period;
        match outcome {
            Ok(()) => println!(rt; "{call}\taccepted"),
            Err(refusal) => self.refused(call, refusal),
        }
    }

    fn day(&mut self, call: u64, day: &Day, out: &mut [u64]) -> io::Result<()> {
        let rt = self.rt;
        let Reply { period, outcome } = self.period.day(day, out);
        self.period = period;
        match outcome {
            Ok(DayReturns { total, max }) => println!(rt; "{call}\taccepted\t{total}\t{max}")?,
            Err(refusal) => self.refused(call, refusal)?,
        }
        put_rows(rt, out, 5)
    }

    fn closing(&mut self, call: u64, out: &mut [u64]) -> io::Result<()> {
        let rt = self.rt;
        let Reply { period, outcome } = self.period.closing(out);
        self.period = period;
        match outcome {
            Ok(
                ClosingReturns {
                    days,
                    highest,
                    funds,
                },
            ) => println!(rt; "{call}\taccepted\t{days}\t{highest}\t{funds}")?,
            Err(refusal) => self.refused(call, refusal)?,
        }
        put_rows(rt, out, 3)
    }

    // An opening with everybody present on all days.
    fn opening(&mut self, call: u64, n: u64, k: u64, groups: &[u64]) -> io::Result<()>
        requires { n ≤ 33 }
    {
        let all = n as usize;
        self.opening_for(call, n, k, groups, &[1; 33][..all], &[31; 33][..all])
    }

    // An opening of three members, one scenario and no groups, with these first and last days.
    fn three_for(&mut self, call: u64, firsts: [u64; 3], lasts: [u64; 3]) -> io::Result<()> {
        self.opening_for(call, 3, 1, &NONE, &firsts, &lasts)
    }

    // A day of three members, each with its house account alone.
    fn houses(
        &mut self,
        call: u64,
        number: u64,
        npvs: [i64; 6],
        margins: [u64; 3],
        extras: [u64; 3],
    ) -> io::Result<()> {
        let day = Day {
            terms: DayTerms { number },
            headings: &houses::<3>(),
            npvs: &npvs,
            margins: &margins,
            extras: &extras,
        };
        self.day(call, &day, &mut [7; 15])
    }

    // A day that a period of three members and one scenario accepts.
    fn good(&mut self, call: u64, number: u64) -> io::Result<()> {
        self.houses(call, number, LOSS, NONE, NONE)
    }

    // A good day but for the numbers of its headings, NPVs, margins and extras and the length of its buffer. From the third on, every account
    // has the same heading.
    fn with_lengths(
        &mut self,
        call: u64,
        number: u64,
        lengths: [usize; 4],
        out: usize,
    ) -> io::Result<()>
        requires { (get_or lengths 0 0 ≤ 257) × (get_or lengths 1 0 ≤ 514) × (get_or lengths 2 0 ≤ 257) × (get_or lengths 3 0 ≤ 257) × (out ≤ 16) }
    {
        let mut headings = [house(3); 257];
        headings[0] = house(1);
        headings[1] = house(2);
        let mut npvs = [0; 514];
        npvs[0] = 50;
        let day = Day {
            terms: DayTerms { number },
            headings: &headings[..lengths[0]],
            npvs: &npvs[..lengths[1]],
            margins: &[0; 257][..lengths[2]],
            extras: &[0; 257][..lengths[3]],
        };
        self.day(call, &day, &mut [7; 16][..out])
    }

    // Day 6 of three members, with these headings. Each account loses 50.
    fn headed(&mut self, call: u64, headings: [Heading; 5]) -> io::Result<()> {
        let day = Day {
            terms: DayTerms { number: 6 },
            headings: &headings,
            npvs: &[60, 10, 60, 10, 60, 10, 60, 10, 60, 10],
            margins: &[0; 5],
            extras: &[0; 5],
        };
        self.day(call, &day, &mut [7; 15])
    }

    // Day 6, good but for the heading of account `at`.
    fn with_heading(&mut self, call: u64, at: usize, heading: Heading) -> io::Result<()>
        requires { at < 5 }
    {
        let mut headings = [
            house(1),
            account(1, 4, KIND_R),
            account(1, 5, KIND_A),
            house(2),
            house(3),
        ];
        headings[at] = heading;
        self.headed(call, headings)
    }

    // Day 30, good but for the amounts of account `at`.
    fn with_amounts(
        &mut self,
        call: u64,
        at: usize,
        npvs: [i64; 2],
        margin: u64,
        extra: u64,
    ) -> io::Result<()>
        requires { at < 3 }
    {
        let mut all = LOSS;
        let mut margins = NONE;
        let mut extras = NONE;
        all[2 * at] = npvs[0];
        all[2 * at + 1] = npvs[1];
        margins[at] = margin;
        extras[at] = extra;
        self.houses(call, 30, all, margins, extras)
    }

    // A day of three members, with these accounts and NPVs and no margins.
    fn without_margins(
        &mut self,
        call: u64,
        number: u64,
        headings: &[Heading],
        npvs: &[i64],
    ) -> io::Result<()>
        requires { length headings.now ≤ 3 }
    {
        let count = headings.len();
        let day = Day {
            terms: DayTerms { number },
            headings,
            npvs,
            margins: &NONE[..count],
            extras: &NONE[..count],
        };
        self.day(call, &day, &mut [7; 15])
    }

    // Two houses: the first loses 100,000,000 under scenario 1 only, the second 80,000,000 under 2 only.
    fn two_scenarios(&mut self, call: u64, number: u64) -> io::Result<()> {
        let day = Day {
            terms: DayTerms { number },
            headings: &houses::<2>(),
            npvs: &[100_000_000, 0, 100_000_000, 80_000_000, 80_000_000, 0],
            margins: &[0; 2],
            extras: &[0; 2],
        };
        self.day(call, &day, &mut [7; 10])
    }
}

// The list, call by call.
impl<'a, P: Print> Calls<'a, P> {
    // A fresh period takes an opening only, and within its limits.
    fn fresh(&mut self) -> io::Result<()> {
        // Row 2; also where 4 holds with it.
        self.good(1, 1)?;
        self.with_lengths(2, 1, [0, 0, 0, 0], 15)?;
        self.closing(3, &mut [7; 9])?;
        // Row 1 by n, k, a group and the list's length.
        self.opening(4, 0, 1, &[])?;
        self.opening(5, 33, 1, &[0; 33])?;
        self.opening(6, 3, 0, &NONE)?;
        self.opening(7, 3, 17, &NONE)?;
        self.opening(8, 3, 1, &[5, 5, 33])?;
        self.opening(9, 3, 1, &[u64::MAX, 5, 0])?;
        self.opening(10, 3, 1, &[5, 5])?;
        self.opening(11, 3, 1, &[5, 5, 0, 0])?;
        // None of these opened it.
        self.good(12, 1)
    }

    // An open period before its first day, and its first days, without losses. Members 1 and 2 are Affiliates.
    fn opened(&mut self) -> io::Result<()> {
        self.opening(13, 3, 1, &[5, 5, 0])?;
        // Row 2, also where 1 holds with it.
        self.opening(14, 1, 2, &[0])?;
        self.opening(15, 0, 1, &[])?;
        // Row 4 of a closing, which refuses it for its buffer alone; one of a good length is call 89.
        self.closing(16, &mut [7; 10])?;
        self.closing(17, &mut [7; 8])?;
        // Row 3.
        self.good(18, 0)?;
        self.good(19, 32)?;
        self.good(20, u64::MAX)?;
        // Days without losses, by no loss and by one that the margin just covers: they are accepted, and in D of the closing, call 81, they do
        // not count.
        self.houses(21, 1, [0; 6], NONE, NONE)?;
        self.houses(22, 2, LOSS, [50, 0, 0], NONE)
    }

    // Day 4, accepted: all four kinds, extras, EULs below 0, half dollars, and Max EUL from the Affiliates together.
    fn all_kinds(&mut self) -> io::Result<()> {
        let day = Day {
            terms: DayTerms { number: 4 },
            headings: &[
                house(1),
                account(1, 1, KIND_R),
                account(1, 2, KIND_R),
                account(1, 3, KIND_R),
                account(1, 4, KIND_U),
                account(1, 5, KIND_A),
                house(2),
                account(2, 1, KIND_R),
                account(2, 9, KIND_U),
                house(3),
            ],
            npvs: &[8, 0, 2, 0, 7, 0, 6, 0, 7, 0, 1, 0, 0, 9, 0, 0, 9, 0, 9, 0],
            margins: &[12, 0, 0, 0, 0, 15, 20, 4, 0, 10],
            extras: &[0, 0, 0, 0, 0, 15, 15, 0, 0, 10],
        };
        self.day(23, &day, &mut [7; 15])
    }

    // Row 3 after day 4, row 4, and day 5, accepted.
    fn lengths(&mut self) -> io::Result<()> {
        self.good(24, 4)?;
        self.good(25, 3)?;
        // 4 comes before 3, and 3 before 5.
        self.with_lengths(26, 3, [3, 6, 3, 3], 14)?;
        self.with_lengths(27, 3, [4, 8, 4, 4], 15)?;
        // Row 4 by no accounts, and by 257. 256 are not too many; here the fourth is bad.
        self.with_lengths(28, 5, [0, 0, 0, 0], 15)?;
        self.with_lengths(29, 5, [257, 514, 257, 257], 15)?;
        self.with_lengths(30, 5, [256, 512, 256, 256], 15)?;
        // By headings, NPVs, margins, extras and the buffer.
        self.with_lengths(31, 5, [2, 6, 3, 3], 15)?;
        self.with_lengths(32, 5, [4, 6, 3, 3], 15)?;
        self.with_lengths(33, 5, [257, 6, 3, 3], 15)?;
        self.with_lengths(34, 5, [3, 5, 3, 3], 15)?;
        self.with_lengths(35, 5, [3, 7, 3, 3], 15)?;
        self.with_lengths(36, 5, [3, 6, 2, 3], 15)?;
        self.with_lengths(37, 5, [3, 6, 3, 4], 15)?;
        self.with_lengths(38, 5, [3, 6, 3, 3], 14)?;
        self.with_lengths(39, 5, [3, 6, 3, 3], 16)?;
        self.with_lengths(40, 5, [3, 6, 3, 3], 0)?;
        self.with_lengths(41, 5, [3, 6, 3, 3], 15)
    }

    // Row 5, and day 6, accepted with the greatest account number.
    fn headings(&mut self) -> io::Result<()> {
        // A member outside 1 to n.
        self.with_heading(42, 0, house(0))?;
        self.headed(
            43,
            [
                house(1),
                house(2),
                house(3),
                house(4),
                account(4, 1, KIND_R),
            ],
        )?;
        self.with_heading(44, 4, house(u64::MAX))?;
        // Not strictly rising: the same account, the same number, a lower number, a lower member.
        self.with_heading(45, 1, house(1))?;
        self.with_heading(46, 2, account(1, 4, KIND_A))?;
        self.with_heading(47, 2, account(1, 3, KIND_A))?;
        self.with_heading(48, 4, account(1, 9, KIND_R))?;
        // A number above 65,535, a kind unknown.
        self.with_heading(49, 2, account(1, 65_536, KIND_A))?;
        self.with_heading(50, 2, account(1, u64::MAX, KIND_U))?;
        self.with_heading(51, 1, account(1, 4, 4))?;
        self.with_heading(52, 2, account(1, 5, u64::MAX))?;
        // Number 0 without H, H without 0, a member's first that is not 0.
        self.with_heading(53, 3, account(2, 0, KIND_R))?;
        self.with_heading(54, 1, account(1, 4, KIND_H))?;
        self.with_heading(55, 3, account(2, 1, KIND_R))?;
        // A member skipped, also the first one; the last one missing.
        self.with_heading(56, 3, house(3))?;
        self.with_heading(57, 0, house(2))?;
        self.with_heading(58, 4, account(2, 1, KIND_U))?;
        // The first of several bad accounts, also where the last members are missing.
        self.headed(
            59,
            [
                house(1),
                account(1, 4, 9),
                account(1, 5, KIND_A),
                house(2),
                account(3, 0, KIND_R),
            ],
        )?;
        self.headed(
            60,
            [
                house(1),
                account(1, 4, KIND_R),
                account(1, 5, KIND_R),
                account(1, 5, KIND_R),
                account(1, 6, KIND_R),
            ],
        )?;
        self.with_heading(61, 2, account(1, 65_535, KIND_A))
    }

    // Row 6, and day 30, accepted with amounts at their limits. Its Max EUL is the highest of the month.
    fn amounts(&mut self) -> io::Result<()> {
        // A base or a stress NPV outside its limit.
        self.with_amounts(62, 1, [-1 - LIMIT, 0], 0, 0)?;
        self.with_amounts(63, 2, [LIMIT + 1, 0], 0, 0)?;
        self.with_amounts(64, 0, [i64::MIN, 0], 0, 0)?;
        self.with_amounts(65, 1, [0, -1 - LIMIT], 0, 0)?;
        self.with_amounts(66, 2, [0, LIMIT + 1], 0, 0)?;
        self.with_amounts(67, 0, [60, i64::MAX], 0, 0)?;
        // A margin above its limit, an extra above its margin.
        self.with_amounts(68, 1, [0, 0], MOST + 1, 0)?;
        self.with_amounts(69, 2, [0, 0], u64::MAX, 0)?;
        self.with_amounts(70, 2, [0, 0], 8, 9)?;
        self.with_amounts(71, 0, [60, 10], MOST, u64::MAX)?;
        // The first bad account, whichever slice is bad.
        self.houses(72, 30, [0, 0, i64::MIN, 0, 0, 0], NONE, [1, 0, 0])?;
        // 5 comes before 6 on every account, and 6 is met on a day without losses too.
        let day = Day {
            terms: DayTerms { number: 30 },
            headings: &[house(1), house(2), account(3, 0, 9)],
            npvs: &[i64::MIN; 6],
            margins: &NONE,
            extras: &NONE,
        };
        self.day(73, &day, &mut [7; 15])?;
        self.with_amounts(74, 0, [0, 0], MOST + 1, 0)?;
        let npvs = [LIMIT, -LIMIT, -LIMIT, LIMIT, 0, 0];
        self.houses(75, 30, npvs, [MOST; 3], [MOST, 0, 0])
    }

    // Day 31, accepted, which reports the Max EUL of day 30, and after which none can be; the closing, with row 4; and what a closed period
    // refuses.
    fn closed(&mut self) -> io::Result<()> {
        self.good(76, 30)?;
        self.houses(77, 31, [1, 0, 1, 0, 1, 0], NONE, NONE)?;
        self.good(78, 31)?;
        self.closing(79, &mut [7; 8])?;
        self.closing(80, &mut [7; 10])?;
        self.closing(81, &mut [7; 9])?;
        // Row 2, also where 4 holds with it. An opening that row 1 refuses leaves the period closed.
        self.closing(82, &mut [7; 9])?;
        self.closing(83, &mut [7; 8])?;
        self.good(84, 31)?;
        self.with_lengths(85, 31, [0, 0, 0, 0], 15)?;
        self.opening(86, 2, 17, &[0; 2])?;
        self.good(87, 31)
    }

    // Two Affiliates and two scenarios. D, M, the sums and the last day number are 0 again, and n, k and the groups are new.
    fn reopened(&mut self) -> io::Result<()> {
        self.opening(88, 2, 2, &[32; 2])?;
        // A month that has not begun, in which nothing is left of the month before.
        self.closing(89, &mut [7; 6])?;
        self.opening(90, 2, 2, &[32; 2])?;
        // Row 4 for the lengths of the first month.
        self.good(91, 1)?;
        // The member's own EUL is above 0 and no EUL under a scenario is: T is 20, Max EUL is 0.
        let day = Day {
            terms: DayTerms { number: 1 },
            headings: &[house(1), account(1, 1, KIND_U), house(2)],
            npvs: &[100, 0, 100, 20, 20, 0, 0, 0, 0],
            margins: &[110, 0, 5],
            extras: &NONE,
        };
        self.day(92, &day, &mut [7; 10])?;
        // Row 3, and a day of another Max EUL.
        self.two_scenarios(93, 1)?;
        self.two_scenarios(94, 2)?;
        self.closing(95, &mut [7; 9])?;
        self.closing(96, &mut [7; 6])
    }

    // The most members and scenarios, and day 31 alone. Max EUL is the sum of the Affiliates 1, 5 and 32 under scenario 16, the EUL of 5 being
    // below 0. Members 2 to 4 lose more together, but are no Affiliates.
    fn most_members(&mut self) -> io::Result<()> {
        let mut groups = [0; 32];
        groups[0] = 32;
        groups[4] = 32;
        groups[31] = 32;
        self.opening(97, 32, 16, &groups)?;
        let mut npvs = [0; 544];
        npvs[0] = LIMIT;
        npvs[17] = LIMIT;
        npvs[34] = LIMIT;
        npvs[51] = LIMIT;
        npvs[543] = -LIMIT;
        let mut margins = [0; 32];
        margins[4] = 1;
        let day = Day {
            terms: DayTerms { number: 31 },
            headings: &houses::<32>(),
            npvs: &npvs,
            margins: &margins,
            extras: &[0; 32],
        };
        self.day(98, &day, &mut [7; 160])?;
        self.closing(99, &mut [7; 96])
    }

    // The most accounts, each with the greatest EUL that there is: no T is greater.
    fn most_accounts(&mut self) -> io::Result<()> {
        self.opening(100, 1, 1, &[1])?;
        let headings: [Heading; 256] = array::from_fn(|i| account(
            1,
            i as u64,
            if i == 0 { KIND_H } else { KIND_U },
        ));
        let npvs: [i64; 512] = array::from_fn(|i| if i % 2 == 0 { LIMIT } else { -LIMIT });
        let day = Day {
            terms: DayTerms { number: 1 },
            headings: &headings,
            npvs: &npvs,
            margins: &[MOST; 256],
            extras: &[MOST; 256],
        };
        self.day(101, &day, &mut [7; 5])?;
        self.closing(102, &mut [7; 3])
    }

    // A month of one member that has not begun. Its closing closes it.
    fn not_begun(&mut self) -> io::Result<()> {
        self.opening(103, 1, 16, &[32])?;
        self.closing(104, &mut [7; 3])?;
        self.closing(105, &mut [7; 3])
    }

    // Days without losses before, between and after two that count. Each reports the highest Max EUL so far, writes 0, and keeps its number;
    // D and the mean are without it.
    fn without_losses(&mut self) -> io::Result<()> {
        self.opening(106, 3, 1, &NONE)?;
        self.houses(107, 1, [0; 6], NONE, NONE)?;
        // Row 3 for its number again.
        self.good(108, 1)?;
        self.good(109, 2)?;
        self.houses(110, 5, LOSS, [50, 0, 0], NONE)?;
        // Row 3 for a number below it, and above that of the last day that counts.
        self.good(111, 4)?;
        self.houses(112, 6, [0, 0, 10, 0, 0, 0], NONE, NONE)?;
        self.houses(113, 31, [0; 6], NONE, NONE)?;
        self.closing(114, &mut [7; 9])?;
        // Such days alone: the closing answers as that of a month that has not begun.
        self.opening(115, 3, 1, &NONE)?;
        self.houses(116, 30, [0; 6], NONE, NONE)?;
        self.houses(117, 31, LOSS, [50, 0, 0], NONE)?;
        self.closing(118, &mut [7; 9])?;
        self.closing(119, &mut [7; 9])
    }

    // Row 1 by first and last days, and row 10. None of these opens the period, which is closed.
    fn days_of_members(&mut self) -> io::Result<()> {
        // Row 1 by the length of either list; then where 10 holds too, by a length, by k and by a group.
        self.opening_for(120, 3, 1, &NONE, &[1, 10], &[31, 31, 10])?;
        self.opening_for(121, 3, 1, &NONE, &[1, 10, 1, 1], &[31, 31, 10])?;
        self.opening_for(122, 3, 1, &NONE, &[1, 10, 1], &[31, 31])?;
        self.opening_for(123, 3, 1, &NONE, &[1, 10, 1], &[31, 31, 10, 10])?;
        self.opening_for(124, 3, 1, &NONE, &[0, 10, 1], &[31, 31])?;
        self.opening_for(125, 3, 17, &NONE, &[1, 10, 1], &[31, 31, 32])?;
        self.opening_for(126, 3, 1, &[0, 33, 0], &[1, 10, 1], &[31, 9, 10])?;
        // Row 10 by a first day, by a last one, and by a first above the last.
        self.three_for(127, [0, 10, 1], [31, 31, 10])?;
        self.three_for(128, [1, 32, 1], [31, 32, 10])?;
        self.three_for(129, [1, 10, u64::MAX], [31, 31, u64::MAX])?;
        self.three_for(130, [0, 10, 1], [0, 31, 10])?;
        self.three_for(131, [1, 10, 1], [31, 32, 10])?;
        self.three_for(132, [1, 10, 1], [31, 31, u64::MAX])?;
        self.three_for(133, [1, 10, 11], [31, 31, 10])?;
        // The first such member of several, and the last of 32.
        self.three_for(134, [1, 1, 0], [31, 32, 31])?;
        let mut lasts = [31; 32];
        lasts[31] = 0;
        self.opening_for(135, 32, 1, &[0; 32], &[1; 32], &lasts)?;
        self.good(136, 1)
    }

    // A month of three members: the second joins on the tenth, the third leaves on it.
    fn joining(&mut self) -> io::Result<()> {
        self.three_for(137, [1, 10, 1], [31, 31, 10])?;
        // Row 2, also where 10 holds with it.
        self.three_for(138, [0, 10, 1], [31, 31, 10])?;
        // The ninth, without the second. Row 5 by an account of it, by the first one's skipped, and by the third one's missing.
        self.good(139, 9)?;
        self.without_margins(140, 9, &[house(3)], &[60, 0])?;
        self.without_margins(141, 9, &[house(1)], &[40, 0])?;
        // With an account of it 4 comes before 5, and so does 3.
        self.with_lengths(142, 9, [3, 6, 3, 3], 14)?;
        self.good(143, 32)?;
        let first_and_third = [40_000_000, 0, 60_000_000, 0];
        self.without_margins(144, 9, &[house(1), house(3)], &first_and_third)?;
        // The tenth, with all three: the second's may not be skipped.
        self.without_margins(145, 10, &[house(1), house(3)], &first_and_third)?;
        let all = [10_000_000, 0, 20_000_000, 0, 40_000_000, 0];
        self.houses(146, 10, all, NONE, NONE)?;
        // The eleventh, without the third: by an account of it, and by the second one's missing. Its Max EUL is the highest.
        self.good(147, 11)?;
        self.without_margins(148, 11, &[house(1), account(1, 1, KIND_R)], &[60, 0, 5, 0])?;
        let first_and_second = [120_000_000, 0, 110_000_000, 0];
        self.without_margins(149, 11, &[house(1), house(2)], &first_and_second)?;
        // The day on which one of the two is absent counts as share 0 in its mean: D is 3 for all.
        self.closing(150, &mut [7; 9])
    }
}

fn main(rt: HostRuntime) -> io::Result<()> {
    let mut calls = Calls {
        rt: &rt,
        period: Period::fresh(),
    };
    calls.fresh()?;
    calls.opened()?;
    calls.all_kinds()?;
    calls.lengths()?;
    calls.headings()?;
    calls.amounts()?;
    calls.closed()?;
    calls.reopened()?;
    calls.most_members()?;
    calls.most_accounts()?;
    calls.not_begun()?;
    calls.without_losses()?;
    calls.days_of_members()?;
    calls.joining()
}
