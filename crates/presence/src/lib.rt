// Change 7, members who join or leave in the month. There is no code here: specs/Presence.antt states what follows of a member's first and last
// day, proofs/AsBefore.antt that where everybody is present from 1 to 31 all is as it was before the change.
#![tactic(auto)]
