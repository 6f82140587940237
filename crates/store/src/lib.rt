// A day's spots in a lent buffer: slots of one record each, free ones marked. Clear, add, strike, close up.
#![tactic(auto)]

mod checks; // checks.rt: each call's checks, in its order
mod moving; // moving.rt: slots freed from a place on, live ones moved down

ghost use Rattle.std.specs.Prelude.{◌≡◌};
ghost use Rattle.store.specs.Store.{outcome, call_of, Clear, Add, Strike, CloseUp};

use record::SPOT_WIDTH;
use store_slots::{search, slot};
use tables::Refusal;
use words::put_first;

// What a call that is not refused answers: done; the slot that was taken; or the number of live records.
#[derive(Clone, Copy)]
pub enum Stored {
    Done,
    At(usize),
    Live(usize),
}

// Frees every slot. Asks only for whole slots.
pub fn clear(buffer: &mut [u8]) -> Result<Stored, Refusal>
    ensures { outcome result buffer.new ≡ call_of Clear buffer.old }
{
    let count = buffer.len() / SPOT_WIDTH;
    if buffer.len() % SPOT_WIDTH != 0 {
        return Err(Refusal::Records(count));
    }
    moving::free_from(buffer, 0);
    Ok(Stored::Done)
}

// Puts a record into the lowest free slot, which is answered.
pub fn add(buffer: &mut [u8], rows: usize, cols: usize, spot: &[u8]) -> Result<Stored, Refusal>
    ensures { outcome result buffer.new ≡ call_of (Add rows cols spot.now) buffer.old }
{
    let free = search::first_free(buffer);
    checks::add(rows, cols, spot, buffer, free)?;
    put_first(buffer, free * SPOT_WIDTH, spot, SPOT_WIDTH);
    Ok(Stored::At(free))
}

// Frees the slot i.
pub fn strike(buffer: &mut [u8], rows: usize, cols: usize, i: usize) -> Result<Stored, Refusal>
    ensures { outcome result buffer.new ≡ call_of (Strike rows cols i) buffer.old }
{
    checks::strike(rows, cols, i, buffer)?;
    let free = slot::free_bytes();
    put_first(buffer, i * SPOT_WIDTH, &free, SPOT_WIDTH);
    Ok(Stored::Done)
}

// Moves the live records down in their order, frees the rest, and answers the live number.
pub fn close_up(buffer: &mut [u8], rows: usize, cols: usize) -> Result<Stored, Refusal>
    ensures { outcome result buffer.new ≡ call_of (CloseUp rows cols) buffer.old }
{
    checks::close_up(rows, cols, buffer)?;
    Ok(Stored::Live(moving::close_up(buffer)))
}
