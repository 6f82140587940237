// The judgement of one pixel: from the samples at its nine places to the record it lists, if any. It knows nothing of maps.
#![tactic(auto)]

pub mod gate;
pub mod judge;
pub mod ring;

use record::Record;

// The size of a map, and the octave that its records carry.
#[derive(Clone, Copy)]
pub struct Frame {
    pub rows: usize,
    pub cols: usize,
    pub octave: u8,
}

// What a pixel lists at both polarities: the minimum and the maximum.
#[derive(Clone, Copy)]
pub struct Listing {
    pub low: Option<Record>,
    pub high: Option<Record>,
}
