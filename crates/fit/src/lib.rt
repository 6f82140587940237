// One pixel's numbers: its cubics, its envelope, a cubic's extreme over a band. Each function follows the published Rust's operations
// one by one, each rounded once; the definitions are in specs/.
#![tactic(auto)]

mod points;
pub mod reference;
pub mod scale_fit;
pub mod stream;

pub use points::pick;

// The least and the largest response of a pixel over the sigmas, and the sigma of each: 0 where it is an end sample's.
#[derive(Clone, Copy)]
pub struct Envelope {
    pub emin: f32,
    pub emax: f32,
    pub smin: f32,
    pub smax: f32,
}

// The scales in which a candidate competes with its neighbours.
#[derive(Clone, Copy)]
pub struct Band {
    pub low: f32,
    pub high: f32,
}
