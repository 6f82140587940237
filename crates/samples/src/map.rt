// A map: four levels of one size, with what they are judged by.
ghost use Rattle.std.specs.Prelude.{length};
ghost use Rattle.samples.specs.Level.{Sized};

use grid::Levels;
use pixel::Frame;
use tables::{Set, Thresholds};

// The levels have the frame's size.
#[derive(Clone, Copy)]
pub struct Map<'a> {
    pub levels: Levels<'a>,
    pub frame: Frame,
    pub set: Set,
    pub thresholds: Thresholds,
    pub ghost sized: { Sized frame (length levels.l0.now) (length levels.l1.now) (length levels.l2.now) (length levels.l3.now) },
}
