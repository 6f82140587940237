// log2 and exp of f32, each one fixed list of whole-number steps.
// Each has no `requires`, and its `ensures` gives the result as one value of the argument, by a definition of specs/.
#![tactic(auto)]

mod exponential;
mod logarithm;

pub use exponential::exp;
pub use logarithm::log2;
