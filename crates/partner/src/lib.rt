// Accepting a partner's list: whether it is the one that is due for the same levels, set, thresholds and octave, and where it first differs.
#![tactic(auto)]

mod check; // check.rt: the refusals
mod pixels; // pixels.rt: the loops over the pixels

ghost use Rattle.std.specs.Prelude.{◌≡◌};
ghost use Rattle.partner.specs.Partner.{partner_of};

use follow::Finding;
use grid::Levels;
use pixel::Frame;
use samples::map::Map;
use tables::{Refusal, Set, Thresholds};

// Whether the list is the one that detection gives for the four levels, given by columns; otherwise where it first differs. Nothing is written.
pub fn accept<'a>(
    set: Set,
    thresholds: Thresholds,
    rows: usize,
    cols: usize,
    octave: usize,
    l0: &'a [f32],
    l1: &'a [f32],
    l2: &'a [f32],
    l3: &'a [f32],
    list: &'a [u8],
) -> Result<Finding, Refusal>
    ensures { result ≡ partner_of set thresholds rows cols octave
        l0.now l1.now l2.now l3.now list.now }
{
    check::checked(
        l0.len(),
        l1.len(),
        l2.len(),
        l3.len(),
        rows,
        cols,
        octave,
        thresholds,
        set,
        list,
    )?;
    let map = Map {
        levels: Levels { l0, l1, l2, l3 },
        frame: Frame {
            rows,
            cols,
            octave: octave as u8,
        },
        set,
        thresholds,
    };
    Ok(pixels::followed(&map, list))
}
