// Whole scenes: cut into tiles, each copied, detected and joined as a map of its own.
#![tactic(auto)]

mod run; // run.rt: the tiles one after the other

ghost use Rattle.std.specs.Prelude.{◌≡◌};
ghost use Rattle.tiles.specs.Tiles.{tile_step};
ghost use Rattle.scene.specs.Scene.{after, scene_of};

use tables::{Refusal, Set, Thresholds};

// What a scene that is not refused answers: how many records it lists, or that the output is full, with the number of whole tiles written.
#[derive(Clone, Copy)]
pub enum Answer {
    Found(usize),
    Full(usize),
}

// Lists the spots of a scene, given as four levels by columns, in the buffer out. Each tile is copied into the slices t0 to t3.
pub fn scene<'a>(
    set: Set,
    thresholds: Thresholds,
    rows: usize,
    cols: usize,
    octave: usize,
    l0: &'a [f32],
    l1: &'a [f32],
    l2: &'a [f32],
    l3: &'a [f32],
    t0: &mut [f32],
    t1: &mut [f32],
    t2: &mut [f32],
    t3: &mut [f32],
    out: &mut [u8],
) -> Result<Answer, Refusal>
    ensures { after result t0.new t1.new t2.new t3.new out.new
        ≡ scene_of tile_step set thresholds rows cols octave l0.now l1.now l2.now l3.now
        t0.old t1.old t2.old t3.old out.old }
{
    scene_checks::checked(
        l0.len(),
        l1.len(),
        l2.len(),
        l3.len(),
        rows,
        cols,
        octave,
        thresholds,
        set,
        t0.len(),
        t1.len(),
        t2.len(),
        t3.len(),
    )?;
    run::run(
        set, thresholds, rows, cols, octave, l0, l1, l2, l3, t0, t1, t2, t3, out,
    )
}
