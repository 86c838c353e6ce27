// Demand 3, one theorem over every list of calls. There is no code here: specs/Demand3.antt states it, proofs/Demand3.antt ties it to the
// functions of `period`, and proofs/Demand3Proved.antt proves it.
#![tactic(auto)]
