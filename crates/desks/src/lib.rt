// Two desks, one lent table of sets: a desk claims a free slot, writes its own, and gives it back.
#![tactic(auto)]

mod checks; // checks.rt: each call's checks, in their order
mod storing; // storing.rt: what is stored
pub mod table; // table.rt: the table's parts, read

ghost use Rattle.std.specs.Prelude.{◌≡◌};
ghost use Rattle.desks.specs.Desks.{outcome, call_of, Claim, Write, Release};

use tables::Refusal;

// Claims a free slot for a desk; its set is zeros until it is written.
pub fn claim(table: &mut [u8], desk: usize, slot: usize) -> Result<(), Refusal>
    ensures { outcome result table.new ≡ call_of Claim table.old desk slot }
{
    checks::claim(table, desk, slot)?;
    storing::claim(table, desk, slot);
    Ok(())
}

// Writes a set record into a slot of the desk's own.
pub fn write(table: &mut [u8], desk: usize, slot: usize, set: &[u8]) -> Result<(), Refusal>
    ensures { outcome result table.new ≡ call_of (Write set.now) table.old desk slot }
{
    checks::write(table, desk, slot, set)?;
    storing::write(table, slot, set);
    Ok(())
}

// Gives a slot of the desk's own back; its set and its count stay.
pub fn release(table: &mut [u8], desk: usize, slot: usize) -> Result<(), Refusal>
    ensures { outcome result table.new ≡ call_of Release table.old desk slot }
{
    checks::release(table, desk, slot)?;
    storing::release(table, slot);
    Ok(())
}
