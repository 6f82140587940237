// What the customer is owed of detection's list: theorems about its definitions alone, in specs and proofs; there is no function here.
#![tactic(auto)]
