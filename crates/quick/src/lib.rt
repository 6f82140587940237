// The square root of an f32 by a guess, for loops that take many. `sqrt` has no `requires`, and its `ensures` gives the result as one value of the
// argument, by the definition of float that `float::sqrt` has. Its two steps serve lines of many values by themselves.
#![tactic(auto)]

mod guessed;

pub use guessed::{guess_of, sqrt, tried};

// A root's pattern, or a whole root, that is right where `near` holds.
// Stays: `tried` promises the bound of `root` where it is not near too, and lines of many values take both by one step, without a branch.
#[derive(Clone, Copy)]
pub struct Trial {
    pub root: u32,
    pub near: bool,
}
