// Change 1, "as printed": what a person reads off a report adds up. There is no code here: specs/AsPrinted.antt states it,
// proofs/EveryReport.antt proves it.
#![tactic(auto)]
