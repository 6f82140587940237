// The checks of a desk's calls: 11, 12 and 4, in their order.
ghost use Rattle.std.specs.Prelude.{◌≡◌, ◌&&◌, eqb};
ghost use Rattle.tables.specs.Set.{good_record};
ghost use Rattle.tables.specs.Refusal.{first_of};
ghost use Rattle.desks.specs.Table.{At, slot_of};
ghost use Rattle.desks.specs.Desks.{usable, count_check, call_checks, Claim, Write, Release};

use crate::table::{count_of, owner_of};
use tables::Refusal;

// Whether the table is 4,264 bytes long, the desk 1 or 2, and the slot one of the eight.
fn is_usable(t: &[u8], desk: usize, slot: usize) -> bool
    ensures { result ≡ usable desk slot t.now }
{
    (t.len() == 4264) & ((desk == 1) | (desk == 2)) & (slot < 8)
}

// Whether they are, and the slot has this owner.
fn is_owned(t: &[u8], desk: usize, slot: usize, owner: usize) -> bool
    ensures { result ≡ (usable desk slot t.now && eqb (slot_of t.now slot).owner owner) }
{
    if !is_usable(t, desk, slot) {
        return false;
    }
    owner_of(t, slot) == owner
}

// Whether the slot's count is the largest.
fn is_full(t: &[u8], slot: usize) -> bool
    requires { At t.now slot }
    ensures { result ≡ (count_check (slot_of t.now slot)).holds }
{
    4294967295 <= count_of(t, slot)
}

// Whether the bytes are a good set record.
fn is_good_record(set: &[u8]) -> bool
    ensures { result ≡ good_record set.now }
{
    tables::read_set(set).is_ok()
}

// A claim's checks: the first that holds.
pub fn claim(t: &[u8], desk: usize, slot: usize) -> Result<(), Refusal>
    ensures { result ≡ first_of (call_checks Claim desk (usable desk slot t.now) (slot_of t.now slot)) }
{
    if !is_owned(t, desk, slot, 0) {
        return Err(Refusal::NotYours);
    }
    if is_full(t, slot) {
        return Err(Refusal::Count);
    }
    Ok(())
}

// A write's.
pub fn write(t: &[u8], desk: usize, slot: usize, set: &[u8]) -> Result<(), Refusal>
    ensures { result ≡ first_of (call_checks (Write set.now) desk (usable desk slot t.now) (slot_of t.now slot)) }
{
    let mine = is_owned(t, desk, slot, desk);
    if !mine {
        return Err(Refusal::NotYours);
    }
    let full = is_full(t, slot);
    let good = is_good_record(set);
    if full {
        return Err(Refusal::Count);
    }
    if !good {
        return Err(Refusal::BadSet);
    }
    Ok(())
}

// A release's.
pub fn release(t: &[u8], desk: usize, slot: usize) -> Result<(), Refusal>
    ensures { result ≡ first_of (call_checks Release desk (usable desk slot t.now) (slot_of t.now slot)) }
{
    if !is_owned(t, desk, slot, desk) {
        return Err(Refusal::NotYours);
    }
    Ok(())
}
