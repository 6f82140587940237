// What a desk has of its own slots, whatever the other desk calls: theorems alone, in specs and proofs; there is no function here.
#![tactic(auto)]
