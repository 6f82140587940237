// The worked cases of a store of a day's spots: theorems alone, in specs and proofs; there is no function here.
#![tactic(auto)]
