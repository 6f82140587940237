// The worked cases of the table that two desks share: theorems alone, in specs and proofs; there is no function here.
#![tactic(auto)]
