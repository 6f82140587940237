// The table's parts, read: eight set records, eight owner bytes, eight write counts.
ghost use Rattle.std.specs.Prelude.{◌≡◌};
ghost use Rattle.desks.specs.Table.{At, slot_of, set_in, runnable};

use tables::Set;

// The byte as a number.
fn wide(x: u8) -> usize
    ensures { result ≡ x }
{
    x as usize
}

// The slot's owner.
pub fn owner_of(t: &[u8], slot: usize) -> usize
    requires { At t.now slot }
    ensures { result ≡ (slot_of t.now slot).owner }
{
    wide(t[4224 + slot])
}

// The slot's write count.
pub fn count_of(t: &[u8], slot: usize) -> u32
    requires { At t.now slot }
    ensures { result ≡ (slot_of t.now slot).count }
{
    words::word_from(t, 4232 + slot * 4)
}

// The set found in the slot.
pub fn set_in(t: &[u8], slot: usize) -> Set
    requires { At t.now slot }
    ensures { result ≡ set_in (slot_of t.now slot) }
{
    let at = slot * 528;
    let end = at + 528;
    tables::read_or_blank(&t[at..end])
}

// Whether detection may be run from the slot.
pub fn is_runnable(t: &[u8], slot: usize) -> bool
    ensures { result ≡ runnable t.now slot }
{
    if t.len() != 4264 {
        return false;
    }
    if 8 <= slot {
        return false;
    }
    let owner = owner_of(t, slot);
    (owner == 1) | (owner == 2)
}
