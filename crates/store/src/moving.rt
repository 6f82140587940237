// Slots freed from a place on, and live ones moved down.
ghost use Rattle.std.specs.Prelude.{◌≡◌, ◌/◌, ◌≤◌, ◌<◌, length};
ghost use Rattle.record.specs.Layout.{spot_width};
ghost use Rattle.store_slots.specs.Slots.{flat, slots_of};
ghost use Rattle.store.specs.Store.{live_slots, closed_up};
ghost use Rattle.store.specs.Steps.{freed, moved, moved_to, Whole};

use record::SPOT_WIDTH;
use store_slots::slot;
use words::put_first;

// Frees the slots from the i-th on.
pub fn free_from(b: &mut [u8], i: usize)
    requires { Whole b.old }
    ensures { b.new ≡ freed b.old i }
{
    let count = b.len() / SPOT_WIDTH;
    let free = slot::free_bytes();
    for k in i..count {
        put_first(b, k * SPOT_WIDTH, &free, SPOT_WIDTH);
    }
}

// The slot i, where it is live, moved to the place n; answers the next place.
fn move_down(b: &mut [u8], i: usize, n: usize) -> usize
    requires whole { Whole b.old }
    requires i_in_bounds { i < length b.old / spot_width }
    requires n_le_i { n ≤ i }
    ensures { (result ≡ moved b.old i n) × (b.new ≡ moved_to b.old i n) }
{
    let s = slot::bytes_at(b, i * SPOT_WIDTH);
    if slot::is_free(&s) {
        return n;
    }
    put_first(b, n * SPOT_WIDTH, &s, SPOT_WIDTH);
    n + 1
}

// All live slots moved down, the rest freed; answers their number.
pub fn close_up(b: &mut [u8]) -> usize
    requires { Whole b.old }
    ensures { (result ≡ length (live_slots (slots_of b.old))) × (b.new ≡ flat (closed_up (slots_of b.old))) }
{
    let count = b.len() / SPOT_WIDTH;
    let mut n: usize = 0;
    for i in 0..count {
        n = move_down(b, i, n);
    }
    free_from(b, n);
    n
}
