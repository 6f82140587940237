// The C face of the feed.
ghost use Rattle.std.specs.Prelude.{◌≡◌, length};
ghost use Rattle.samples.specs.Four.{four_of};
ghost use Rattle.states.specs.Bytes.{start_left, start_bytes, column_left, column_bytes};
ghost use Rattle.face.specs.Face.{thresholds_of};

use crate::thresholds_of;

// Begins a feed under the set in the record set, and writes its state. Answers 0, or the refusal's number.
pub fn uramsheg_feed_start<'a>(
    set: &'a [u8],
    peak: f32,
    sigma: f32,
    ratio: f32,
    low: f32,
    high: f32,
    rows: usize,
    cols: usize,
    octave: usize,
    r0: &'a [f32],
    r1: &'a [f32],
    r2: &'a [f32],
    r3: &'a [f32],
    state: &mut [u8],
) -> u32
    ensures { start_left result state.new
        ≡ start_bytes set.now (thresholds_of peak sigma ratio low high) rows cols octave
        (length r0.now) (length r1.now) (length r2.now) (length r3.now) state.old }
{
    let thresholds = thresholds_of(peak, sigma, ratio, low, high);
    states::start(set, thresholds, rows, cols, octave, r0, r1, r2, r3, state)
}

// Gives the next column of each level. Answers 0, with the count in value, or the refusal's number, with 0 in value.
pub fn uramsheg_feed_column<'a>(
    state: &mut [u8],
    c0: &'a [f32],
    c1: &'a [f32],
    c2: &'a [f32],
    c3: &'a [f32],
    r0: &mut [f32],
    r1: &mut [f32],
    r2: &mut [f32],
    r3: &mut [f32],
    out: &mut [u8],
    value: &mut u64,
) -> u32
    ensures { column_left result value.new state.new (four_of r0.new r1.new r2.new r3.new) out.new
        ≡ column_bytes state.old (four_of c0.now c1.now c2.now c3.now)
        (four_of r0.old r1.old r2.old r3.old) out.old }
{
    states::column(state, c0, c1, c2, c3, r0, r1, r2, r3, out, value)
}
