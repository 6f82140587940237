// The half kernels that take a raw map to its four levels.
#![tactic(auto)]

pub mod gauss; // gauss.rt: the kernel of a sigma, and those of an octave

// Half a symmetric kernel: taps[0] weighs the centre, taps[t] both samples t off it, for t up to the radius; the rest are 0.
#[derive(Clone, Copy)]
pub struct Kernel {
    pub radius: usize,
    pub taps: [f32; 17],
}
