// Change 5, a member's EUL in any order of its accounts. There is no code here: specs/AnyOrder.antt states it, proofs/AnyOrder.antt proves
// it, of the function `Accounts::eul` in the crate `exposure`.
#![tactic(auto)]
