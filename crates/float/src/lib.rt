// The float helpers of f32: absolute value, min, max, clamp, finiteness, square root; and what reads a pattern: its two parts, and a number made wider.
// Each has no `requires`, and its `ensures` gives the result as one value of the arguments, by a definition of specs/.
#![tactic(auto)]

mod bits;
mod root;
mod small;

pub use bits::{field, lead, to_u64};
pub use root::sqrt;
pub use small::{abs, clamp, is_finite, max, min};
