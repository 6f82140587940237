// The checks of levels.
ghost use Rattle.std.specs.Prelude.{◌≡◌};
ghost use Rattle.tables.specs.Refusal.{first_of};
ghost use Rattle.levels.specs.Levels.{room_check, levels_checks};

use tables::{Refusal, Set};

// Whether one of four buffers of n0 to n3 floats is shorter than n.
fn short(n0: usize, n1: usize, n2: usize, n3: usize, n: usize) -> bool
    ensures { result ≡ (room_check n0 n1 n2 n3 n).holds }
{
    (n0 < n) | ((n1 < n) | ((n2 < n) | (n3 < n)))
}

// Of the checks of levels, in its order (1, 2, 3, 4, 6), the first that holds is answered.
pub fn checked(
    n: usize,
    n0: usize,
    n1: usize,
    n2: usize,
    n3: usize,
    rows: usize,
    cols: usize,
    octave: usize,
    set: Set,
) -> Result<(), Refusal>
    ensures { result ≡ first_of (levels_checks n n0 n1 n2 n3 rows cols octave set) }
{
    if (4096 < rows) | (4096 < cols) {
        return Err(Refusal::Size);
    }
    let area = rows * cols;
    let good = tables::is_good(set);
    if n != area {
        return Err(Refusal::Level);
    }
    if 5 < octave {
        return Err(Refusal::Octave);
    }
    if !good {
        return Err(Refusal::BadSet);
    }
    if short(n0, n1, n2, n3, area) {
        return Err(Refusal::Room);
    }
    Ok(())
}
