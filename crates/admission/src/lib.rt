// An accepted spot lies on its map, and the admission test that document 01 adds refuses nothing: theorems about detection's definitions alone, in specs and proofs; there is no function here.
#![tactic(auto)]
