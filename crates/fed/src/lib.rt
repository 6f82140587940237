// What a feed of columns comes to: theorems about runs of calls alone, in specs and proofs; there is no function here.
#![tactic(auto)]
