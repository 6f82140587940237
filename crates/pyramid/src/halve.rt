// Halving a level: its sides, the loops over the pixels that stay, and the refusals.
ghost use Rattle.std.specs.Prelude.{◌≡◌, ◌+◌, ◌*◌, ◌≤◌, length};
ghost use Rattle.tables.specs.Refusal.{first_of};
ghost use Rattle.grid.specs.Grid.{list_of, columns_of, Stored};
ghost use Rattle.pyramid.specs.Pyramid.{half_of, second_of, taken_of, Halves, downsample_checks};

use tables::Refusal;

// Half a side, rounded down; 0 where a side is under 2.
pub fn half(side: usize, other: usize) -> usize
    ensures { result ≡ half_of side other }
{
    if (side < 2) | (other < 2) {
        return 0;
    }
    side / 2
}

// Of the checks of downsample, in its order (1, 2, 6), the first that holds is answered.
pub fn checked(n: usize, room: usize, rows: usize, cols: usize) -> Result<(), Refusal>
    ensures { result ≡ first_of (downsample_checks n room rows cols) }
{
    if (4096 < rows) | (4096 < cols) {
        return Err(Refusal::Size);
    }
    let area = rows * cols;
    let needed = half(rows, cols) * half(cols, rows);
    if n != area {
        return Err(Refusal::Level);
    }
    if room < needed {
        return Err(Refusal::Room);
    }
    Ok(())
}

// Every second pixel from place p on, n of them, goes to the places from at on.
fn halve_column(level: &[f32], p: usize, n: usize, out: &mut [f32], at: usize)
    requires n_in_bounds { p + 2 * n ≤ length level.now }
    requires n_in_bounds_2 { at + n ≤ length out.old }
    ensures { Stored out.old out.new at (list_of (second_of level.now p) n) }
{
    for r in 0..n {
        out[at + r] = level[p + 2 * r];
    }
}

// The halved level goes to the buffer's start.
pub fn halve_level(level: &[f32], rows: usize, height: usize, width: usize, out: &mut [f32])
    requires { Halves (length level.now) (length out.old) rows height width }
    ensures { Stored out.old out.new 0 (columns_of (taken_of level.now rows) height width) }
{
    for c in 0..width {
        halve_column(level, 2 * c * rows, height, out, c * height);
    }
}
