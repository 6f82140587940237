// The join: each spot's record with its size and its home pixel. A size comes from the four samples, the sigma and the polarity in the spot's own record.
// A list is an old one, of records from before displacements were kept, or a present one: but for how its records lie (forms.rt) both are joined alike.
#![tactic(auto)]

pub mod check; // check.rt: the refusals
pub mod forms; // forms.rt: how the records of a list lie
mod put; // put.rt: sized records

ghost use Rattle.std.specs.Prelude.{true, false, ◌≡◌};
ghost use Rattle.join.specs.Join.{outcome, join_by, join_of, join_old_of};

use forms::{Form, Old, Present};
use tables::{Refusal, Set};

// Sizes the records of a list, old or present.
fn join_by<F: Form>(
    set: Set,
    rows: usize,
    cols: usize,
    list: &[u8],
    out: &mut [u8],
) -> Result<usize, Refusal>
    ensures { outcome result out.new ≡ join_by F.is_old set rows cols list.now out.old }
{
    check::checked::<F>(set, rows, cols, list, out.len())?;
    Ok(put::put_all::<F>(set, list, out))
}

// Sizes the records of a list found on a map of rows by cols: 60 bytes for each, in the list's order, in the buffer out.
pub fn join(
    set: Set,
    rows: usize,
    cols: usize,
    list: &[u8],
    out: &mut [u8],
) -> Result<usize, Refusal>
    ensures { outcome result out.new ≡ join_of set rows cols list.now out.old }
{
    join_by::<Present>(set, rows, cols, list, out)
}

// The same of an old list, whose records have 40 bytes: 52 bytes for each.
pub fn join_old(
    set: Set,
    rows: usize,
    cols: usize,
    list: &[u8],
    out: &mut [u8],
) -> Result<usize, Refusal>
    ensures { outcome result out.new ≡ join_old_of set rows cols list.now out.old }
{
    join_by::<Old>(set, rows, cols, list, out)
}
