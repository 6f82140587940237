// What the reader of a partner's list answers, in the request's words: theorems alone, in specs and proofs; there is no function here.
#![tactic(auto)]
