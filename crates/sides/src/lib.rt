// The candidates of a column of a feed: thinned by the column's own lines, in the slot at 0, then by the cubics beside them, gathered for those that are left
// into the slots at 260, of the column before it, and at 520, of the one after it.
#![tactic(auto)]

mod accept;
pub mod block;
mod own;
mod side;
