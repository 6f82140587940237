// Detection: the spots of four levels.
#![tactic(auto)]

mod candidates; // candidates.rt: the records laid into a buffer
pub mod walk; // walk.rt: the walk over the judged pixels

ghost use Rattle.std.specs.Prelude.{◌≡◌};
ghost use Rattle.detect.specs.Detect.{outcome, detect_of};

use grid::Levels;
use pixel::Frame;
use samples::map::Map;
use tables::{Refusal, Set, Thresholds};

// Lists the spots of four levels, given by columns, in the buffer out.
pub fn detect<'a>(
    set: Set,
    thresholds: Thresholds,
    rows: usize,
    cols: usize,
    octave: usize,
    l0: &'a [f32],
    l1: &'a [f32],
    l2: &'a [f32],
    l3: &'a [f32],
    out: &mut [u8],
) -> Result<usize, Refusal>
    ensures { outcome result out.new
        ≡ detect_of set thresholds rows cols octave l0.now l1.now l2.now l3.now out.old }
{
    checks::checked(
        l0.len(),
        l1.len(),
        l2.len(),
        l3.len(),
        rows,
        cols,
        octave,
        thresholds,
        set,
    )?;
    let map = Map {
        levels: Levels { l0, l1, l2, l3 },
        frame: Frame {
            rows,
            cols,
            octave: octave as u8,
        },
        set,
        thresholds,
    };
    Ok(candidates::rows_spots(&map, out))
}
