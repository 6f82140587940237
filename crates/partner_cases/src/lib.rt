// Cases of the reader of a partner's list, worked by computation: theorems alone, in specs and proofs; there is no function here.
#![tactic(auto)]
