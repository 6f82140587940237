// Whole numbers from floats. Each function has no `requires`, and its `ensures` gives the result as one value of the argument, by a definition of specs/.
#![tactic(auto)]

mod half_up;

pub use half_up::nearest;
