// No code: sums, lists and searches over 0 .. n - 1 (specs/), with their laws (proofs/).
#![tactic(auto)]
