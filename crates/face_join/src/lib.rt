// The join's face: its answer as a number and a value.
#![tactic(auto)]

ghost use Rattle.std.specs.Prelude.{◌≡◌};
ghost use Rattle.face.specs.Face.{left};
ghost use Rattle.face_join.specs.Face.{join_face, join_old_face};

use face::{number_of, value_of};

// Sizes the records of a list found on a map of rows by cols, in the buffer out, under the set in the record set. Answers 0, with the count in value,
// or the refusal's number, with the value that goes with it in value.
// Stays: C takes the answer as a number and its value through a pointer.
pub fn join<'a>(
    set: &'a [u8],
    rows: usize,
    cols: usize,
    list: &'a [u8],
    out: &mut [u8],
    value: &mut u64,
) -> u32
    ensures { left result value.new out.new
        ≡ join_face set.now rows cols list.now out.old }
{
    let tables = tables::read_or_blank(set);
    let answer = join::join(tables, rows, cols, list, out);
    *value = value_of(answer);
    number_of(&answer)
}

// The same of an old list, whose records have 40 bytes and their sized ones 52.
// Stays: C takes the answer as a number and its value through a pointer.
pub fn join_old<'a>(
    set: &'a [u8],
    rows: usize,
    cols: usize,
    list: &'a [u8],
    out: &mut [u8],
    value: &mut u64,
) -> u32
    ensures { left result value.new out.new
        ≡ join_old_face set.now rows cols list.now out.old }
{
    let held = tables::read_or_blank(set);
    let answer = join::join_old(held, rows, cols, list, out);
    *value = value_of(answer);
    number_of(&answer)
}
