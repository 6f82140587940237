// The desks' face: their answers as numbers.
#![tactic(auto)]

ghost use Rattle.std.specs.Prelude.{◌≡◌};
ghost use Rattle.desks.specs.Desks.{Claim, Write, Release};
ghost use Rattle.face.specs.Face.{left};
ghost use Rattle.face_desks.specs.Face.{table_left, call_face, run_face};

use face::{number_of, value_of};
use tables::Thresholds;

// Claims a free slot for a desk. Answers 0, or the refusal's number, with the table as it was.
// Stays: C takes the answer as a number.
pub fn claim(table: &mut [u8], desk: usize, slot: usize) -> u32
    ensures { table_left result table.new ≡ call_face Claim table.old desk slot }
{
    let told = desks::claim(table, desk, slot);
    number_of(&told)
}

// Writes a set record into a slot of the desk's own. Answers as claim does.
// Stays: C takes the answer as a number.
pub fn write(table: &mut [u8], desk: usize, slot: usize, set: &[u8]) -> u32
    ensures { table_left result table.new ≡ call_face (Write set.now) table.old desk slot }
{
    let told = desks::write(table, desk, slot, set);
    number_of(&told)
}

// Gives a slot of the desk's own back. Answers as claim does.
// Stays: C takes the answer as a number.
pub fn release(table: &mut [u8], desk: usize, slot: usize) -> u32
    ensures { table_left result table.new ≡ call_face Release table.old desk slot }
{
    let told = desks::release(table, desk, slot);
    number_of(&told)
}

// Lists the spots of four levels in the buffer out, under the set that stands in a slot. Answers 0, with the count in value, or the refusal's number, with
// the value that goes with it in value.
// Stays: C takes the answer as a number and its value through a pointer, and passes each level as a pointer.
pub fn run<'a>(
    table: &'a [u8],
    slot: usize,
    thresholds: Thresholds,
    rows: usize,
    cols: usize,
    octave: usize,
    l0: &'a [f32],
    l1: &'a [f32],
    l2: &'a [f32],
    l3: &'a [f32],
    out: &mut [u8],
    value: &mut u64,
) -> u32
    ensures { left result value.new out.new
        ≡ run_face table.now slot thresholds rows cols octave
        l0.now l1.now l2.now l3.now out.old }
{
    let answer = desk_run::run(
        table, slot, thresholds, rows, cols, octave, l0, l1, l2, l3, out,
    );
    *value = value_of(answer);
    number_of(&answer)
}
