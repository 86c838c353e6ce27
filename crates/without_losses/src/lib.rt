// No code. Change 4 of document 02: `WithoutLosses`, the claim, in specs/WithoutLosses.antt, and its proof in proofs/WithoutLosses.antt.
