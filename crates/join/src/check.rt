// The join's checks, in its order.
ghost use Rattle.std.specs.Prelude.{◌≡◌, ◌/◌, ◌≤◌, length};
ghost use Rattle.tables.specs.Refusal.{first_of};
ghost use Rattle.join.specs.Forms.{width_of};
ghost use Rattle.join.specs.Join.{first_bad, join_checks};

use crate::forms::{self, Form};
use tables::{Refusal, Set};

// The index of the first record that is not readable; their number where each is.
pub fn first_bad<F: Form>(rows: usize, cols: usize, list: &[u8]) -> usize
    requires rows_bound { rows ≤ 4096 }
    requires cols_bound { cols ≤ 4096 }
    ensures { result ≡ first_bad F.is_old rows cols list.now (length list.now / width_of F.is_old) 0 }
{
    let count = forms::count_of::<F>(list.len());
    for i in 0..count {
        if !record::is_readable(rows, cols, F::record_in(list, i)) {
            return i;
        }
    }
    count
}

// Of the join's checks, in its order (1, 4, 5 for the length, 5 for a record, 6), the first that holds is answered.
pub fn checked<F: Form>(
    set: Set,
    rows: usize,
    cols: usize,
    list: &[u8],
    room: usize,
) -> Result<(), Refusal>
    ensures { result ≡ first_of (join_checks F.is_old set rows cols list.now room) }
{
    if (4096 < rows) | (4096 < cols) {
        return Err(Refusal::Size);
    }
    let good = tables::is_good(set);
    let count = forms::count_of::<F>(list.len());
    let whole = forms::is_whole::<F>(list.len());
    if !good {
        return Err(Refusal::BadSet);
    }
    if !whole {
        return Err(Refusal::Records(count));
    }
    let bad = first_bad::<F>(rows, cols, list);
    if bad < count {
        return Err(Refusal::Records(bad));
    }
    if forms::is_short::<F>(count, room) {
        return Err(Refusal::Room);
    }
    Ok(())
}
