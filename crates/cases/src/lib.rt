// Document 01's table of worked cases: a theorem about the definitions alone, in specs and proofs; there is no function here.
#![tactic(auto)]
