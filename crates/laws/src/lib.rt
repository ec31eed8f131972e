// No code: what is proved of `model`'s definitions (proofs/), and what the functions of a step ask (specs/).
#![tactic(auto)]
