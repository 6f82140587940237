// The checks of each call, in its order: the first that holds is answered.
ghost use Rattle.std.specs.Prelude.{◌≡◌, ◌≤◌};
ghost use Rattle.tables.specs.Refusal.{first_of};
ghost use Rattle.store_slots.specs.Slots.{is_free, slots_of, first_where};
ghost use Rattle.store.specs.Store.{good_new, call_checks, Add, Strike, CloseUp};

use record::SPOT_WIDTH;
use store_slots::search;
use tables::Refusal;

// Whether a new record is as long as a slot, and readable.
fn is_good_new(rows: usize, cols: usize, spot: &[u8]) -> bool
    requires rows_bound { rows ≤ 4096 }
    requires cols_bound { cols ≤ 4096 }
    ensures { result ≡ good_new rows cols spot.now }
{
    if spot.len() != SPOT_WIDTH {
        return false;
    }
    record::is_readable(rows, cols, record::record_from(spot, 0))
}

// Closing up has those that adding and striking begin with: 1, 5 for the length, 5 for a slot.
pub fn close_up(rows: usize, cols: usize, b: &[u8]) -> Result<(), Refusal>
    ensures { result ≡ first_of (call_checks (CloseUp rows cols) b.now) }
{
    if (4096 < rows) | (4096 < cols) {
        return Err(Refusal::Size);
    }
    let count = b.len() / SPOT_WIDTH;
    if b.len() % SPOT_WIDTH != 0 {
        return Err(Refusal::Records(count));
    }
    let bad = search::first_bad(rows, cols, b);
    if bad < count {
        return Err(Refusal::Records(bad));
    }
    Ok(())
}

// Adding: then 5 for the new record, and 6 where free, the lowest free slot, is past the end.
pub fn add(rows: usize, cols: usize, spot: &[u8], b: &[u8], free: usize) -> Result<(), Refusal>
    requires { free ≡ first_where is_free (slots_of b.now) }
    ensures { result ≡ first_of (call_checks (Add rows cols spot.now) b.now) }
{
    close_up(rows, cols, b)?;
    let slots = b.len() / SPOT_WIDTH;
    let good = is_good_new(rows, cols, spot);
    if !good {
        return Err(Refusal::Records(slots));
    }
    if slots <= free {
        return Err(Refusal::Room);
    }
    Ok(())
}

// Striking: then 13.
pub fn strike(rows: usize, cols: usize, i: usize, b: &[u8]) -> Result<(), Refusal>
    ensures { result ≡ first_of (call_checks (Strike rows cols i) b.now) }
{
    close_up(rows, cols, b)?;
    if !search::is_live(b, i) {
        return Err(Refusal::NoSpot);
    }
    Ok(())
}
