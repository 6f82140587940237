// A scene's refusals before its first tile.
#![tactic(auto)]

ghost use Rattle.std.specs.Prelude.{◌≡◌};
ghost use Rattle.tables.specs.Refusal.{first_of};
ghost use Rattle.tiles.specs.Tiles.{tile_step};
ghost use Rattle.scene_checks.specs.Checks.{scene_check, room_check, scene_checks};

use tables::{Refusal, Set, Thresholds};

// Whether a side is too long for a scene.
fn sides_off(rows: usize, cols: usize) -> bool
    ensures { result ≡ (scene_check rows cols).holds }
{
    (16384 < rows) | (16384 < cols)
}

// Whether a slice of t0 to t3 floats is too short for the first tile.
fn room_off(rows: usize, cols: usize, t0: usize, t1: usize, t2: usize, t3: usize) -> bool
    ensures { result ≡ (room_check tile_step rows cols t0 t1 t2 t3).holds }
{
    let need = tiles::length_of(rows, 0) * tiles::length_of(cols, 0);
    (t0 < need) | ((t1 < need) | ((t2 < need) | (t3 < need)))
}

// Of a scene's checks, in their order, the first that holds.
pub fn checked(
    n0: usize,
    n1: usize,
    n2: usize,
    n3: usize,
    rows: usize,
    cols: usize,
    octave: usize,
    thresholds: Thresholds,
    set: Set,
    t0: usize,
    t1: usize,
    t2: usize,
    t3: usize,
) -> Result<(), Refusal>
    ensures { result ≡ first_of (scene_checks tile_step n0 n1 n2 n3 rows cols octave thresholds set t0 t1 t2 t3) }
{
    let short = room_off(rows, cols, t0, t1, t2, t3);
    let high = checks::octave_off(octave);
    let lost = tables::has_nan(thresholds);
    let good = tables::is_good(set);
    if sides_off(rows, cols) {
        return Err(Refusal::Scene);
    }
    if checks::levels_off(n0, n1, n2, n3, rows * cols) {
        return Err(Refusal::Level);
    }
    if high {
        return Err(Refusal::Octave);
    }
    if lost {
        return Err(Refusal::Thresholds);
    }
    if !good {
        return Err(Refusal::BadSet);
    }
    if short {
        return Err(Refusal::Room);
    }
    Ok(())
}
