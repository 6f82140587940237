// The numbers of a spot's refinement, before the spot is moved. Each function follows the published Rust's operations one by one, each rounded once;
// the definitions are in specs/.
#![tactic(auto)]

pub mod edge; // edge.rt: the nine values at a sigma, and edge rejection
pub mod place; // place.rt: the spatial fit, and the displacement that it gives
