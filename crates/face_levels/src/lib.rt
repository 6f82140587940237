// The levels' face: its answer as a number.
#![tactic(auto)]

ghost use Rattle.std.specs.Prelude.{◌≡◌};
ghost use Rattle.face_levels.specs.Face.{levels_left, levels_face};

// Makes the four levels of a raw map at the starts of the buffers l0 to l3, under the set in the record set. Answers 0, or the refusal's number.
// Stays: C takes the answer as a number, and passes each level as a pointer.
pub fn levels(
    set: &[u8],
    rows: usize,
    cols: usize,
    octave: usize,
    raw: &[f32],
    l0: &mut [f32],
    l1: &mut [f32],
    l2: &mut [f32],
    l3: &mut [f32],
) -> u32
    ensures { levels_left result l0.new l1.new l2.new l3.new
        ≡ levels_face set.now rows cols octave raw.now
        l0.old l1.old l2.old l3.old }
{
    let tables = tables::read_or_blank(set);
    let answer = levels::levels(tables, rows, cols, octave, raw, l0, l1, l2, l3);
    face::number_of(&answer)
}
