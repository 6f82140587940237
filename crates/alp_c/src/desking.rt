// The C face of the table that two desks share.
ghost use Rattle.std.specs.Prelude.{◌≡◌};
ghost use Rattle.desks.specs.Desks.{Claim, Write, Release};
ghost use Rattle.face.specs.Face.{left, thresholds_of};
ghost use Rattle.face_desks.specs.Face.{table_left, call_face, run_face};

use crate::thresholds_of;

// Claims a free slot of the table for a desk. Answers 0, or the refusal's number, with the table as it was.
pub fn uramsheg_desk_claim(table: &mut [u8], desk: usize, slot: usize) -> u32
    ensures { table_left result table.new ≡ call_face Claim table.old desk slot }
{
    face_desks::claim(table, desk, slot)
}

// Writes a set record into a slot of the desk's own. Answers 0, or the refusal's number, with the table as it was.
pub fn uramsheg_desk_write(table: &mut [u8], desk: usize, slot: usize, set: &[u8]) -> u32
    ensures { table_left result table.new ≡ call_face (Write set.now) table.old desk slot }
{
    face_desks::write(table, desk, slot, set)
}

// Gives a slot of the desk's own back. Answers 0, or the refusal's number, with the table as it was.
pub fn uramsheg_desk_release(table: &mut [u8], desk: usize, slot: usize) -> u32
    ensures { table_left result table.new ≡ call_face Release table.old desk slot }
{
    face_desks::release(table, desk, slot)
}

// Lists the spots of four levels in the buffer out, under the set that stands in a slot of the table. Answers 0, with the count in value, or the refusal's
// number, with the value that goes with it in value.
pub fn uramsheg_desk_run<'a>(
    table: &'a [u8],
    slot: usize,
    peak: f32,
    sigma: f32,
    ratio: f32,
    low: f32,
    high: f32,
    rows: usize,
    cols: usize,
    octave: usize,
    l0: &'a [f32],
    l1: &'a [f32],
    l2: &'a [f32],
    l3: &'a [f32],
    out: &mut [u8],
    value: &mut u64,
) -> u32
    ensures { left result value.new out.new
        ≡ run_face table.now slot (thresholds_of peak sigma ratio low high) rows cols octave
        l0.now l1.now l2.now l3.now out.old }
{
    let th = thresholds_of(peak, sigma, ratio, low, high);
    face_desks::run(
        table, slot, th, rows, cols, octave, l0, l1, l2, l3, out, value,
    )
}
