// No code: text that is put into a lent buffer, and how long an answer's and a sheet's can be (specs/), with what is proved of it (proofs/).
#![tactic(auto)]
