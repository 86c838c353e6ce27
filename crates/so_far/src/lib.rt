// Change 3, the highest so far in the daily figures. There is no code here: specs/HighestSoFar.antt states it, proofs/HighestSoFar.antt
// proves it.
#![tactic(auto)]
