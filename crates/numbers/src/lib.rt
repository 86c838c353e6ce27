// Definitions and laws of numbers and lists, in specs/ and proofs/. There is no code here.
#![tactic(auto)]
