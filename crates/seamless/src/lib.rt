// A scene cut into tiles lists what the untiled scene lists: theorems alone, in specs and proofs; there is no function here.
#![tactic(auto)]
