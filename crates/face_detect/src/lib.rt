// Detection's face: its answer as a number and a value.
#![tactic(auto)]

ghost use Rattle.std.specs.Prelude.{◌≡◌};
ghost use Rattle.face.specs.Face.{left};
ghost use Rattle.face_detect.specs.Face.{detect_face};

use face::{number_of, value_of};
use tables::Thresholds;

// Lists the spots of four levels in the buffer out, under the set in the record set. Answers 0, with the count in value, or the refusal's number, with
// the value that goes with it in value.
// Stays: C takes the answer as a number and its value through a pointer, and passes each level as a pointer.
pub fn detect<'a>(
    set: &'a [u8],
    thresholds: Thresholds,
    rows: usize,
    cols: usize,
    octave: usize,
    l0: &'a [f32],
    l1: &'a [f32],
    l2: &'a [f32],
    l3: &'a [f32],
    out: &mut [u8],
    value: &mut u64,
) -> u32
    ensures { left result value.new out.new
        ≡ detect_face set.now thresholds rows cols octave
        l0.now l1.now l2.now l3.now out.old }
{
    let tables = tables::read_or_blank(set);
    let answer = detect::detect(tables, thresholds, rows, cols, octave, l0, l1, l2, l3, out);
    *value = value_of(answer);
    number_of(&answer)
}
