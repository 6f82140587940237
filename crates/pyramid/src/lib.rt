// The pyramid's helpers: how many octaves a map has, and the level that the next octave starts from.
#![tactic(auto)]

mod octaves; // octaves.rt: the octaves of a shortest side
mod halve; // halve.rt: every second pixel of every second column, and the refusals

ghost use Rattle.std.specs.Prelude.{◌≡◌};
ghost use Rattle.pyramid.specs.Pyramid.{octave_count_of, outcome, downsample_of};

use tables::Refusal;

// How many octaves a map of these sides has.
pub fn octave_count(rows: usize, cols: usize) -> u32
    ensures { result ≡ octave_count_of rows cols }
{
    if rows <= cols {
        octaves::octaves(rows)
    } else {
        octaves::octaves(cols)
    }
}

// Halves a level, given by columns, into the buffer out, where it lies by columns of its own rows.
pub fn downsample(
    rows: usize,
    cols: usize,
    level: &[f32],
    out: &mut [f32],
) -> Result<(usize, usize), Refusal>
    ensures { outcome result out.new ≡ downsample_of rows cols level.now out.old }
{
    halve::checked(level.len(), out.len(), rows, cols)?;
    let height = halve::half(rows, cols);
    let width = halve::half(cols, rows);
    halve::halve_level(level, rows, height, width, out);
    Ok((height, width))
}
