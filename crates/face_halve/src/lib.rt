// The face of the pyramid's helpers: downsample's answer as a number and two sides.
#![tactic(auto)]

ghost use Rattle.std.specs.Prelude.{◌≡◌};
ghost use Rattle.pyramid.specs.Pyramid.{octave_count_of};
ghost use Rattle.face_halve.specs.Face.{halved_left, downsample_face};

// How many octaves a map of these sides has.
pub fn octave_count(rows: usize, cols: usize) -> u32
    ensures { result ≡ octave_count_of rows cols }
{
    pyramid::octave_count(rows, cols)
}

// Halves a level into the buffer out. Answers 0, with the new sides in halfrows and halfcols, or the refusal's number, with both neither read nor
// written.
// Stays: C takes the answer as a number, and the two sides through pointers.
pub fn downsample(
    rows: usize,
    cols: usize,
    level: &[f32],
    out: &mut [f32],
    halfrows: &mut u64,
    halfcols: &mut u64,
) -> u32
    ensures { halved_left result halfrows.new halfcols.new out.new
        ≡ downsample_face rows cols level.now out.old halfrows.old halfcols.old }
{
    let answer = pyramid::downsample(rows, cols, level, out);
    if let Ok((newrows, newcols)) = answer {
        *halfrows = newrows as u64;
        *halfcols = newcols as u64;
    }
    face::number_of(&answer)
}
