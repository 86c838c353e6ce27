// Document 01's figures 1 to 10, run through the calls of a period. What it prints is held to the stored output: for each figure
// its number, T and Max EUL, then each member's five numbers; for 9 and 10 then the closing's D, M and total funded, and each
// member's raw, funded and unfunded contribution.
#![tactic(auto)]

ghost use Rattle.std.specs.Prelude.{◌≡◌, ◌*◌, ◌≤◌, length};

use methodology::{Day, DayTerms, Heading, KIND_A, KIND_H, KIND_R, KIND_U};
use period::{ClosingReturns, DayReturns, Period};
use printing::put_rows;
use std::{array, io};

// A figure's period and a day in it.
#[derive(Clone, Copy)]
struct Figure<'a> {
    number: u64,
    groups: &'a [u64],
    k: u64,
    day: Day<'a>,
    ghost few: { length groups.now ≤ 6 },
}

impl<'a> Figure<'a> {
    // The period, opened, with everybody present on all days.
    fn opened(&self) -> Period {
        let n = self.groups.len();
        Period::fresh()
            .opening(n as u64, self.k, self.groups, &[1; 6][..n], &[31; 6][..n])
            .period
    }

    // Has the period size the day, and prints what it says and writes. The period is handed back.
    fn size(&self, rt: &impl Print, period: Period) -> io::Result<Period> {
        let mut room = [0; 30];
        let out = &mut room[..5 * self.groups.len()];
        let reply = period.day(&self.day, out);
        if let Ok(DayReturns { total, max }) = reply.outcome {
            let figure = self.number;
            println!(rt; "{figure}\t{total}\t{max}")?;
        }
        put_rows(rt, out, 5)?;
        Ok(reply.period)
    }
}

// Closes the period, and prints D, M and the total funded, then each member's three numbers.
fn close(rt: &impl Print, period: Period, out: &mut [u64]) -> io::Result<()> {
    let reply = period.closing(out);
    if let Ok(
        ClosingReturns {
            days,
            highest,
            funds,
        },
    ) = reply.outcome
    {
        println!(rt; "{days}\t{highest}\t{funds}")?;
    }
    put_rows(rt, out, 3)
}

// The house accounts of the first members, as in `calls`: each program is read by itself.
fn houses<const N: usize>() -> [Heading; N] {
    array::from_fn(|i| Heading {
        member: i as u64 + 1,
        number: 0,
        kind: KIND_H,
    })
}

// Member 1's accounts, from number 0 on, by their kinds.
fn accounts<const N: usize>(kinds: [u64; N]) -> [Heading; N] {
    array::from_fn(|i| Heading {
        member: 1,
        number: i as u64,
        kind: kinds[i],
    })
}

// The figures of one day and no closing.
fn single_days(rt: &impl Print) -> io::Result<()> {
    let first = DayTerms { number: 1 };
    let illustrative = Day {
        terms: first,
        headings: &houses::<6>(),
        npvs: &[1000, 0, 300, 0, 500, 0, 800, 0, 600, 0, 400, 0],
        margins: &[550, 100, 250, 300, 400, 200],
        extras: &[0; 6],
    };
    let figures = [
        // The six members of 001.
        Figure {
            number: 1,
            groups: &[0; 6],
            k: 1,
            day: illustrative,
        },
        // The same, the first one's margin being 700.
        Figure {
            number: 2,
            groups: &[0; 6],
            k: 1,
            day: Day {
                margins: &[700, 100, 250, 300, 400, 200],
                ..illustrative
            },
        },
        // House -40; R 60, 50, 30, -25; U 20; A 10.
        Figure {
            number: 3,
            groups: &[0],
            k: 1,
            day: Day {
                terms: first,
                headings: &accounts([KIND_H, KIND_R, KIND_R, KIND_R, KIND_R, KIND_U, KIND_A]),
                npvs: &[0, 0, 60, 0, 50, 0, 30, 0, 0, 0, 20, 0, 10, 0],
                margins: &[40, 0, 0, 0, 25, 0, 0],
                extras: &[0; 7],
            },
        },
        // House 0; R 10, 10; U 100.
        Figure {
            number: 4,
            groups: &[0],
            k: 1,
            day: Day {
                terms: first,
                headings: &accounts([KIND_H, KIND_R, KIND_R, KIND_U]),
                npvs: &[0, 0, 10, 0, 10, 0, 100, 0],
                margins: &[0; 4],
                extras: &[0; 4],
            },
        },
        // House 0; R five times 3.
        Figure {
            number: 5,
            groups: &[0],
            k: 1,
            day: Day {
                terms: first,
                headings: &accounts([KIND_H, KIND_R, KIND_R, KIND_R, KIND_R, KIND_R]),
                npvs: &[0, 0, 3, 0, 3, 0, 3, 0, 3, 0, 3, 0],
                margins: &[0; 6],
                extras: &[0; 6],
            },
        },
        // Affiliates 100 and -30 under one scenario.
        Figure {
            number: 6,
            groups: &[1, 1],
            k: 1,
            day: Day {
                terms: first,
                headings: &houses::<2>(),
                npvs: &[100, 0, 0, 0],
                margins: &[0, 30],
                extras: &[0; 2],
            },
        },
        // Affiliates 100 and 80, a third member 150.
        Figure {
            number: 7,
            groups: &[1, 1, 0],
            k: 1,
            day: Day {
                terms: first,
                headings: &houses::<3>(),
                npvs: &[100, 0, 80, 0, 150, 0],
                margins: &[0; 3],
                extras: &[0; 3],
            },
        },
        // Affiliates, one losing 100 under 1 only, the other 80 under 2 only.
        Figure {
            number: 8,
            groups: &[1, 1],
            k: 2,
            day: Day {
                terms: first,
                headings: &houses::<2>(),
                npvs: &[100, 0, 100, 80, 80, 0],
                margins: &[0; 2],
                extras: &[0; 2],
            },
        },
    ];
    for figure in figures {
        figure.size(rt, figure.opened())?;
    }
    Ok(())
}

// Figure 9: one day, three losses of 200,000,000.
fn three_alike(rt: &impl Print) -> io::Result<()> {
    let figure = Figure {
        number: 9,
        groups: &[0; 3],
        k: 1,
        day: Day {
            terms: DayTerms { number: 1 },
            headings: &houses::<3>(),
            npvs: &[200_000_000, 0, 200_000_000, 0, 200_000_000, 0],
            margins: &[0; 3],
            extras: &[0; 3],
        },
    };
    let period = figure.size(rt, figure.opened())?;
    close(rt, period, &mut [0; 9])
}

// Figure 10: days (100m, 100m) and (0, 600m), of which the second has the higher Max EUL.
fn two_days(rt: &impl Print) -> io::Result<()> {
    let day = Day {
        terms: DayTerms { number: 1 },
        headings: &houses::<2>(),
        npvs: &[100_000_000, 0, 100_000_000, 0],
        margins: &[0; 2],
        extras: &[0; 2],
    };
    let first = Figure {
        number: 10,
        groups: &[0; 2],
        k: 1,
        day,
    };
    let second = Figure {
        number: 10,
        groups: &[0; 2],
        k: 1,
        day: Day {
            terms: DayTerms { number: 2 },
            npvs: &[0, 0, 600_000_000, 0],
            ..day
        },
    };
    let period = first.size(rt, first.opened())?;
    let period = second.size(rt, period)?;
    close(rt, period, &mut [0; 6])
}

fn main(rt: HostRuntime) -> io::Result<()> {
    single_days(&rt)?;
    three_alike(&rt)?;
    two_days(&rt)
}
