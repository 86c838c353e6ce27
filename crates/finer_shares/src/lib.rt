// Change 6, finer shares. There is no code here: specs/FinerShares.antt states what follows of them, proofs/FinerShares.antt proves it.
#![tactic(auto)]
