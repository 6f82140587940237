// The pass that rules pixels out: over a block of rows it goes column by column and leaves a mark for each pixel. A mark of 0 means that the pixel lists
// nothing; nothing else is claimed of it.
#![tactic(auto)]

pub mod block;
mod pass;
