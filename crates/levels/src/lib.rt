// The four levels of a raw map.
#![tactic(auto)]

mod checks; // checks.rt: the checks, in their order

ghost use Rattle.std.specs.Prelude.{◌≡◌, ◌+◌, ◌<◌, length};
ghost use Rattle.blur.specs.Passes.{Plane};
ghost use Rattle.levels.specs.Levels.{outcome, placed, levels_of};

use kernels::gauss::octave_kernel;
use tables::{Refusal, Set};

// Makes the levels n and n + 1 of a raw map at the starts of two buffers.
fn two(
    set: Set,
    rows: usize,
    cols: usize,
    octave: usize,
    raw: &[f32],
    n: usize,
    x: &mut [f32],
    y: &mut [f32],
)
    requires n_bound { n + 1 < 4 }
    requires plane { Plane (length raw.now) (length x.old) (length y.old) rows cols }
    ensures { (x.new ≡ placed set rows cols octave raw.now n x.old)
        × (y.new ≡ placed set rows cols octave raw.now (n + 1) y.old) }
{
    let g = set.sigmas;
    let j = octave_kernel(octave, g[2], g[n]);
    let k = octave_kernel(octave, g[2], g[n + 1]);
    blur::two_levels(raw, rows, cols, j, k, x, y);
}

// Makes the four levels of a raw map, given by columns, at the starts of four buffers.
pub fn levels(
    set: Set,
    rows: usize,
    cols: usize,
    octave: usize,
    raw: &[f32],
    l0: &mut [f32],
    l1: &mut [f32],
    l2: &mut [f32],
    l3: &mut [f32],
) -> Result<(), Refusal>
    ensures { outcome result l0.new l1.new l2.new l3.new
        ≡ levels_of set rows cols octave raw.now l0.old l1.old l2.old l3.old }
{
    checks::checked(
        raw.len(),
        l0.len(),
        l1.len(),
        l2.len(),
        l3.len(),
        rows,
        cols,
        octave,
        set,
    )?;
    two(set, rows, cols, octave, raw, 0, l0, l1);
    two(set, rows, cols, octave, raw, 2, l2, l3);
    Ok(())
}
