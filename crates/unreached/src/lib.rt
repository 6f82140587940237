// Tests of the profile statistic that no input fails: theorems about its definitions alone, in specs and proofs; there is no function here.
#![tactic(auto)]
