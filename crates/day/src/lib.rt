// A store of a day's spots is a simple list of optional spots: theorems alone, in specs and proofs; there is no function here.
#![tactic(auto)]
