// Searches over the slots.
ghost use Rattle.std.specs.Prelude.{◌≡◌, not, ◌≤◌, get_or};
ghost use Rattle.store_slots.specs.Slots.{free_bytes, is_free, slots_of, first_where, bad_slot};

use crate::slot;
use record::SPOT_WIDTH;

// The place of the first slot that is neither free nor readable; their number where none is.
pub fn first_bad(rows: usize, cols: usize, b: &[u8]) -> usize
    requires rows_bound { rows ≤ 4096 }
    requires cols_bound { cols ≤ 4096 }
    ensures { result ≡ first_where (bad_slot rows cols) (slots_of b.now) }
{
    let (slots, _) = b.as_chunks::<SPOT_WIDTH>();
    slots
        .iter()
        .position(|s| slot::is_bad(rows, cols, s))
        .unwrap_or(slots.len())
}

// The place of the lowest free slot; their number where none is.
pub fn first_free(b: &[u8]) -> usize
    ensures { result ≡ first_where is_free (slots_of b.now) }
{
    let (slots, _) = b.as_chunks::<SPOT_WIDTH>();
    slots
        .iter()
        .position(|s| slot::is_free(s))
        .unwrap_or(slots.len())
}

// Whether the slot i holds a record; past the end none does.
pub fn is_live(b: &[u8], i: usize) -> bool
    ensures { result ≡ not (is_free (get_or (slots_of b.now) i free_bytes)) }
{
    if b.len() / SPOT_WIDTH <= i {
        return false;
    }
    let at = i * SPOT_WIDTH;
    let end = at + SPOT_WIDTH;
    !slot::is_free(&b[at..end])
}
