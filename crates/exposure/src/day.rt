// A day's losses, T and its own Max EUL, member by member.
ghost use Rattle.std.specs.Prelude.{◌≡◌, ◌≤◌};
ghost use Rattle.methodology.specs.Account.{accounts};
ghost use Rattle.methodology.specs.Brought.{day_brought};
ghost use Rattle.methodology.specs.Day.{own_max_eul};
ghost use Rattle.validation.specs.Slices.{listed, Rising};
ghost use Rattle.exposure.specs.AccountsIn.{accounts_in};
ghost use Rattle.exposure.specs.DayFigures.{Sizable, LossesAre, Grouped, FiguresAre};

use crate::account::{Scenario, gain};
use crate::accounts::Accounts;
use crate::rows::{add_row, row_greatest, rows_greatest};
use methodology::{Day, Opening};

// Each member's loss, member 1's first, and their sum T. Nothing is on a heap, so there are places for as many members as a period may have.
#[derive(Clone, Copy)]
pub struct Losses {
    pub each: [u64; 32],
    pub total: u64,
}

// It and `own_max_eul` walk over members alike, and keep other things of them: a closure in common would need a contract of its own.
fn member_losses(n: usize, all: Accounts) -> Losses
    requires members_few { n ≤ 32 }
    requires rising { Rising all.headings.now }
    ensures { LossesAre n all.entry.k (accounts_in all.entry) result }
{
    let mut each = [0; 32];
    let mut total = 0;
    let mut left = all;
    for (i, loss) in each[..n].iter_mut().enumerate() {
        let (own, others) = left.split(i as u64 + 1);
        *loss = gain(own.eul(Scenario::Own));
        total += *loss;
        left = others;
    }
    Losses { each, total }
}

// The greatest of 0, all members' EULs and all group sums, under all scenarios. "Every scenario is added up for itself, in an array of
// group rows by scenario."
pub fn own_max_eul(opening: Opening, day: &Day) -> u64
    requires { Sizable opening.n opening.k (day_brought day.now) × Grouped opening }
    ensures { result ≡ own_max_eul (listed opening) (accounts opening.k (day_brought day.now)) }
{
    let mut rows = [[0; 16]; 32];
    let mut top: u64 = 0;
    let mut left = Accounts::of_day(opening.k, day);
    for (i, &group) in opening.groups[..opening.n as usize].iter().enumerate() {
        let (own, others) = left.split(i as u64 + 1);
        let row = own.row();
        top = top.max(row_greatest(row));
        add_row(&mut rows, group, row);
        left = others;
    }
    top.max(rows_greatest(rows))
}

// A day's own figures, worked from its accounts and what the opening brought alone: losses, T, and `top`, its own Max EUL.
#[derive(Clone, Copy)]
pub struct Figures {
    pub losses: Losses,
    pub top: u64,
}

pub fn day_figures(opening: Opening, day: &Day) -> Figures
    requires { Sizable opening.n opening.k (day_brought day.now) × Grouped opening }
    ensures { FiguresAre opening (day_brought day.now) result }
{
    Figures {
        losses: member_losses(opening.n as usize, Accounts::of_day(opening.k, day)),
        top: own_max_eul(opening, day),
    }
}
