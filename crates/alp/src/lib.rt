// The detector's entries, each from the crate that has its promise.
#![tactic(auto)]

pub use desk_run::run;
pub use desks::{claim, release, write};
pub use detect::detect;
pub use feed::{feed_column, feed_start};
pub use join::{join, join_old};
pub use levels::levels;
pub use partner::accept;
pub use pyramid::{downsample, octave_count};
pub use samples::view;
pub use scene::scene;
pub use size::correct;
pub use store::{add, clear, close_up, strike};
pub use tables::read_set;
