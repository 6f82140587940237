// Each promise settles what a call leaves: theorems about the contracts of the functions, in specs and proofs; there is no function here.
#![tactic(auto)]
