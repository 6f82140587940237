// Two levels of a raw map at once, by two kernels: the pair sums of the first pass are made once for both.
#![tactic(auto)]

mod across; // across.rt: the first pass, across columns, for two kernels at once
mod along; // along.rt: the second pass, along a line

ghost use Rattle.std.specs.Prelude.{◌≡◌, ◌+◌, ◌*◌, ◌≤◌, length};
ghost use Rattle.grid.specs.Grid.{list_of, Stored};
ghost use Rattle.blur.specs.Blur.{level_at, level_of};
ghost use Rattle.blur.specs.Passes.{Map, Plane, Radii, Drawn, along_to};

use kernels::Kernel;

// A line of the first pass is padded, and its second pass goes to the buffer from place at on.
fn finish(rows: usize, k: Kernel, line: &mut [f32; 4128], out: &mut [f32], at: usize)
    requires le_rows { (1 ≤ rows) × (rows ≤ 4096) }
    requires radius_bound { k.radius ≤ 16 }
    requires line_len { length line.old ≡ 4128 }
    requires rows_in_bounds { at + rows ≤ length out.old }
    ensures { (length line.new ≡ 4128)
        × Stored out.old out.new at (list_of (along_to line.old rows k.taps k.radius) rows) }
{
    lines::pad(rows, line);
    along::along(line, rows, k, out, at);
}

// One column of two levels; the two lines are room that it writes over.
fn column(
    raw: &[f32],
    rows: usize,
    cols: usize,
    col: usize,
    j: Kernel,
    k: Kernel,
    a: &mut [f32; 4128],
    b: &mut [f32; 4128],
    x: &mut [f32],
    y: &mut [f32],
)
    requires map { Map (length raw.now) rows cols col }
    requires radii { Radii j k }
    requires a_len { (length a.old ≡ 4128) × (length b.old ≡ 4128) }
    requires cols_in_bounds { (rows * cols ≤ length x.old) × (rows * cols ≤ length y.old) }
    ensures { Drawn a.new b.new x.old x.new y.old y.new (col * rows)
        (list_of (λ r. level_at raw.now rows cols j r col) rows) (list_of (λ r. level_at raw.now rows cols k r col) rows) }
{
    across::both(raw, rows, cols, col, j, k, a, b);
    let at = col * rows;
    finish(rows, j, a, x, at);
    finish(rows, k, b, y, at);
}

// Two levels of a raw map, whole, at the starts of two buffers.
pub fn two_levels(
    raw: &[f32],
    rows: usize,
    cols: usize,
    j: Kernel,
    k: Kernel,
    x: &mut [f32],
    y: &mut [f32],
)
    requires plane { Plane (length raw.now) (length x.old) (length y.old) rows cols }
    requires radii { Radii j k }
    ensures { Stored x.old x.new 0 (level_of raw.now rows cols j)
        × Stored y.old y.new 0 (level_of raw.now rows cols k) }
{
    if rows == 0 {
        return;
    }
    let mut a: [f32; 4128] = [0.0; 4128];
    let mut b: [f32; 4128] = [0.0; 4128];
    for c in 0..cols {
        column(raw, rows, cols, c, j, k, &mut a, &mut b, x, y);
    }
}
