// No code: what stored sheets are converted to (specs/), and what is proved of it (proofs/).
#![tactic(auto)]
