// The theorem on zeros: which zero min, max or the start of a sum gives reaches a record at most as the sign of a zero peak. No functions.
#![tactic(auto)]
