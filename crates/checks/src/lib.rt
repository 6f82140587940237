// Detection's checks: sides, levels, octave, thresholds and set, in their order.
#![tactic(auto)]

ghost use Rattle.std.specs.Prelude.{◌≡◌};
ghost use Rattle.tables.specs.Refusal.{first_of, sides_check, octave_check};
ghost use Rattle.checks.specs.Checks.{levels_check, detect_checks};

use tables::{Refusal, Set, Thresholds};

// Whether a side is too long.
pub fn sides_off(rows: usize, cols: usize) -> bool
    ensures { result ≡ (sides_check rows cols).holds }
{
    (4096 < rows) | (4096 < cols)
}

// Whether one of four levels of n0 to n3 floats is not n long.
pub fn levels_off(n0: usize, n1: usize, n2: usize, n3: usize, n: usize) -> bool
    ensures { result ≡ (levels_check n0 n1 n2 n3 n).holds }
{
    (n0 != n) | ((n1 != n) | ((n2 != n) | (n3 != n)))
}

// Whether the octave is too high.
pub fn octave_off(octave: usize) -> bool
    ensures { result ≡ (octave_check octave).holds }
{
    5 < octave
}

// Of detection's checks, in their order, the first that holds.
pub fn checked(
    n0: usize,
    n1: usize,
    n2: usize,
    n3: usize,
    rows: usize,
    cols: usize,
    octave: usize,
    thresholds: Thresholds,
    set: Set,
) -> Result<(), Refusal>
    ensures { result ≡ first_of (detect_checks n0 n1 n2 n3 rows cols octave thresholds set) }
{
    let high = octave_off(octave);
    let lost = tables::has_nan(thresholds);
    let good = tables::is_good(set);
    if sides_off(rows, cols) {
        return Err(Refusal::Size);
    }
    if levels_off(n0, n1, n2, n3, rows * cols) {
        return Err(Refusal::Level);
    }
    if high {
        return Err(Refusal::Octave);
    }
    if lost {
        return Err(Refusal::Thresholds);
    }
    if !good {
        return Err(Refusal::BadSet);
    }
    Ok(())
}
