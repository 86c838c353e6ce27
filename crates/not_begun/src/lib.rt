// Change 2, a month that has not begun, and the number that no refusal has since. There is no code here: specs/NotBegun.antt and
// specs/NeverOccurs.antt state it, proofs/NotBegun.antt and proofs/NeverOccurs.antt prove it.
#![tactic(auto)]
