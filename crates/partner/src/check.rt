// The reader's checks, in its order.
ghost use Rattle.std.specs.Prelude.{◌≡◌, false, ◌≤◌};
ghost use Rattle.tables.specs.Refusal.{first_of};
ghost use Rattle.join.specs.Join.{records_checks};
ghost use Rattle.partner.specs.Partner.{partner_checks};

use join::forms::Present;
use record::SPOT_WIDTH;
use tables::{Refusal, Set, Thresholds};

// The list's: its length is looked at before its records, and each of them is.
fn records_checked(rows: usize, cols: usize, list: &[u8]) -> Result<(), Refusal>
    requires rows_bound { rows ≤ 4096 }
    requires cols_bound { cols ≤ 4096 }
    ensures { result ≡ first_of (records_checks false rows cols list.now) }
{
    let count = list.len() / SPOT_WIDTH;
    let whole = list.len() % SPOT_WIDTH == 0;
    if !whole {
        return Err(Refusal::Records(count));
    }
    let bad = join::check::first_bad::<Present>(rows, cols, list);
    if bad < count {
        return Err(Refusal::Records(bad));
    }
    Ok(())
}

// Detection's, then the list's.
pub fn checked(
    n0: usize,
    n1: usize,
    n2: usize,
    n3: usize,
    rows: usize,
    cols: usize,
    octave: usize,
    thresholds: Thresholds,
    set: Set,
    list: &[u8],
) -> Result<(), Refusal>
    ensures { result ≡ first_of (partner_checks n0 n1 n2 n3 rows cols octave thresholds set list.now) }
{
    checks::checked(n0, n1, n2, n3, rows, cols, octave, thresholds, set)?;
    records_checked(rows, cols, list)
}
