// A member's EUL, in one pass over its accounts: no account's EUL is kept.
ghost use Rattle.std.specs.Prelude.{◌≡◌, cond, ◌+◌, ◌*◌, ◌/◌, ◌≤◌, eqb, nat_abs};
ghost use Rattle.methodology.specs.Account.{kind_r, kind_u};
ghost use Rattle.methodology.specs.Refusals.{limit};
ghost use Rattle.exposure.specs.Tally.{Small, TallyWith, Ended};

use crate::account::gain;
use methodology::{KIND_H, KIND_R};

// A client's positive EUL where its kind is R, else 0.
fn only_of_r(kind: u64, gain: u64) -> u64
    ensures { result ≡ cond (eqb kind kind_r) gain 0 }
{
    if kind == KIND_R { gain } else { 0 }
}

// What the accounts passed so far come to: the house EUL with its sign; the positive EULs of all clients, and of those of kind R; the two
// largest of kind R.
#[derive(Clone, Copy)]
pub struct Tally {
    house: i64,
    clients: u64,
    of_r: u64,
    first: u64,
    second: u64,
}

impl Tally {
    // Of no account.
    pub const EMPTY: Tally = Tally {
        house: 0,
        clients: 0,
        of_r: 0,
        first: 0,
        second: 0,
    };

    // With one account more. Clients of all kinds take one path: kinds change from account to account, and a branch on them costs more than
    // the few operations that it would save.
    pub fn with(self, kind: u64, eul: i64) -> Tally
        requires { Small self × (kind ≤ kind_u) × (nat_abs eul ≤ 2 * limit) }
        ensures { TallyWith self kind eul result }
    {
        if kind == KIND_H {
            return Tally {
                house: self.house + eul,
                ..self
            };
        }
        let gain = gain(eul);
        let of_r = only_of_r(kind, gain);
        Tally {
            clients: self.clients + gain,
            of_r: self.of_r + of_r,
            first: self.first.max(of_r),
            second: self.second.max(self.first.min(of_r)),
            ..self
        }
    }

    // The member's EUL once all accounts are passed. Half of the clients' sum goes a half dollar up.
    pub fn eul(self) -> i64
        requires { Small self }
        ensures { Ended self result }
    {
        let part_b = self.clients.div_ceil(2).max(self.first + self.second);
        let part_c = self.clients - self.of_r;
        self.house + (part_b + part_c) as i64
    }
}
