// The second pass, along a padded line, into a buffer.
ghost use Rattle.std.specs.Prelude.{◌≡◌, ◌+◌, ◌≤◌, ◌<◌, length};
ghost use Rattle.grid.specs.Grid.{list_of, Stored};
ghost use Rattle.lines.specs.Lines.{Padded, Held};
ghost use Rattle.blur.specs.Passes.{Along, along_to};

use kernels::Kernel;

// One, two or four taps more; how many are then done.
fn step(line: &[f32; 4128], rows: usize, k: Kernel, t: usize, out: &mut [f32], at: usize) -> usize
    requires padded { Padded line.now rows }
    requires radius_bound { k.radius ≤ 16 }
    requires t_lt_radius { t < k.radius }
    requires rows_in_bounds { at + rows ≤ length out.old }
    requires held { Held out.old at rows (along_to line.now rows k.taps t) }
    ensures { Along t result k.radius out.old out.new at rows (along_to line.now rows k.taps) }
{
    let s = t + 1;
    let u = t + 2;
    let v = t + 4;
    if v <= k.radius {
        lines::add_four(
            line,
            16 - s,
            16 + s,
            k.taps[s],
            k.taps[u],
            k.taps[t + 3],
            k.taps[v],
            rows,
            out,
            at,
        );
        return v;
    }
    if u <= k.radius {
        lines::add_two(
            line,
            16 - s,
            16 + s,
            k.taps[s],
            16 - u,
            16 + u,
            k.taps[u],
            rows,
            out,
            at,
        );
        return u;
    }
    lines::add(line, 16 - s, 16 + s, rows, k.taps[s], out, at);
    s
}

// The pass along a padded line goes to the buffer from place at on.
pub fn along(line: &[f32; 4128], rows: usize, k: Kernel, out: &mut [f32], at: usize)
    requires padded { Padded line.now rows }
    requires radius_bound { k.radius ≤ 16 }
    requires rows_in_bounds { at + rows ≤ length out.old }
    ensures { Stored out.old out.new at
        (list_of (along_to line.now rows k.taps k.radius) rows) }
{
    lines::weigh(line, 16, rows, k.taps[0], out, at);
    let mut t: usize = 0;
    // Stays: `step` says how many taps a turn does, one, two or four; no range counts that.
    while t < k.radius {
        t = step(line, rows, k, t, out, at);
    }
}
