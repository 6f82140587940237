// The refinement of a spot by the nine cubics around it: edge rejection and the place between pixels. Each function follows the published Rust's
// operations one by one, each rounded once; the definitions are in specs/.
#![tactic(auto)]

pub mod lend;
pub mod refine;

// A spot: its place, the sigma and the response of its extremum, the octave, the inner level whose fit placed it, whether it is a maximum, and how far the
// fit moved it.
#[derive(Clone, Copy)]
pub struct Spot {
    pub x: f32,
    pub y: f32,
    pub sigma: f32,
    pub peak: f32,
    pub octave: u8,
    pub index: u8,
    pub max: bool,
    pub dx: f32,
    pub dy: f32,
}
