// Detection with the set found in a slot of the desks' table.
#![tactic(auto)]

ghost use Rattle.std.specs.Prelude.{◌≡◌};
ghost use Rattle.detect.specs.Detect.{outcome};
ghost use Rattle.desk_run.specs.Run.{run_of};

use tables::{Refusal, Thresholds};

// Lists the spots of four levels in the buffer out, under the set that stands in a slot which a desk owns; whoever calls it.
pub fn run<'a>(
    table: &'a [u8],
    slot: usize,
    thresholds: Thresholds,
    rows: usize,
    cols: usize,
    octave: usize,
    l0: &'a [f32],
    l1: &'a [f32],
    l2: &'a [f32],
    l3: &'a [f32],
    out: &mut [u8],
) -> Result<usize, Refusal>
    ensures { outcome result out.new
        ≡ run_of table.now slot thresholds rows cols octave l0.now l1.now l2.now l3.now out.old }
{
    if !desks::table::is_runnable(table, slot) {
        return Err(Refusal::NotYours);
    }
    let set = desks::table::set_in(table, slot);
    detect::detect(set, thresholds, rows, cols, octave, l0, l1, l2, l3, out)
}
