// The slots of a store of spots: the bytes of one, and searches over them.
#![tactic(auto)]

pub mod search; // search.rt: the first bad slot, the lowest free one, whether one is live
pub mod slot; // slot.rt: the bytes of one slot
