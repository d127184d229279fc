// What is proved of the definitions of `model`, for every job: the claims are in specs/, the
// theorems in proofs/. There is no code here.
#![tactic(auto)]
