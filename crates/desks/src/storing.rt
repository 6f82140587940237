// What a call that is done stores in the table.
ghost use Rattle.std.specs.Prelude.{◌≡◌, ◌<◌, length, set};
ghost use Rattle.std.proofs.lemmas.List.Edits.{sets};
ghost use Rattle.words.specs.Words.{word_bytes};
ghost use Rattle.desks.specs.Table.{At, slot_of, owner_place, count_place};
ghost use Rattle.desks.specs.Desks.{top, stored, Claim, Write};

use crate::table::count_of;
use words::{put_first, put_word};

// A write count.
fn put_count(t: &mut [u8], slot: usize, count: u32)
    requires { At t.old slot }
    ensures { t.new ≡ sets t.old (count_place slot) (word_bytes count) }
{
    put_word(t, 4232 + slot * 4, count);
}

// A claim: a record of zeros, the owner, one more in the count.
pub fn claim(t: &mut [u8], desk: usize, slot: usize)
    requires at { At t.old slot }
    requires slot_bound { (slot_of t.old slot).count < top }
    requires desk_bound { desk < 3 }
    ensures { t.new ≡ stored Claim desk slot t.old }
{
    let count = count_of(t, slot);
    let zeros = [0u8; 528];
    put_first(t, slot * 528, &zeros, 528);
    t[4224 + slot] = desk as u8;
    put_count(t, slot, count + 1);
}

// A write: the set record, one more in the count; the owner is the desk already.
pub fn write(t: &mut [u8], slot: usize, set: &[u8])
    requires at { At t.old slot }
    requires slot_bound { (slot_of t.old slot).count < top }
    requires set_len { length set.now ≡ 528 }
    ensures { t.new ≡ stored (Write set.now) 0 slot t.old }
{
    let count = count_of(t, slot);
    put_first(t, slot * 528, set, 528);
    put_count(t, slot, count + 1);
}

// A release: the owner byte alone.
pub fn release(t: &mut [u8], slot: usize)
    requires { At t.old slot }
    ensures { t.new ≡ set t.old (owner_place slot) 0 }
{
    t[4224 + slot] = 0;
}
