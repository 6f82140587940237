// A tile's copy of a level.
ghost use Rattle.std.specs.Prelude.{◌≡◌, ◌+◌, ◌≤◌, length, take, drop};
ghost use Rattle.std.proofs.lemmas.List.Edits.{sets};
ghost use Rattle.tiles.specs.Copy.{tile_level, Cut};

// n pixels of a level from place p on go to the places from at on.
fn copy_column(level: &[f32], p: usize, n: usize, out: &mut [f32], at: usize)
    requires n_in_bounds { p + n ≤ length level.now }
    requires n_in_bounds_2 { at + n ≤ length out.old }
    ensures { out.new ≡ sets out.old at (take n (drop p level.now)) }
{
    for r in 0..n {
        out[at + r] = level[p + r];
    }
}

// The h by w pixels of a level of rows rows that begin at (r0, c0) go to the buffer's start.
pub fn copy_tile(
    level: &[f32],
    rows: usize,
    r0: usize,
    c0: usize,
    h: usize,
    w: usize,
    out: &mut [f32],
)
    requires { Cut (length level.now) (length out.old) rows r0 c0 h w }
    ensures { out.new ≡ sets out.old 0 (tile_level level.now rows r0 c0 h w) }
{
    for c in 0..w {
        copy_column(level, (c0 + c) * rows + r0, h, out, c * h);
    }
}
