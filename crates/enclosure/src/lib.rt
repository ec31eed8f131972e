// No code: the exact sum and what is claimed over it (specs/), and why it holds (proofs/).
#![tactic(auto)]
