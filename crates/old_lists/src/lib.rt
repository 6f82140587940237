// The join of an old list is the join as it was before displacements were kept: theorems about definitions alone, in specs and proofs; there is no function here.
#![tactic(auto)]
