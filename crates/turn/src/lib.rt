// One tile's turn: copied into the four slices, and what it lists laid after the records of the tiles before it.
#![tactic(auto)]

ghost use Rattle.std.specs.Prelude.{◌≡◌, ◌*◌, length, take};
ghost use Rattle.tile.specs.Tile.{found_in, filling, fill_of, Fits};
ghost use Rattle.scene_checks.specs.Checks.{SceneIn};
ghost use Rattle.turn.specs.Turn.{scene_maps, Turn, Cuts, Copied, Lent, TileAfter};

use tables::{Set, Thresholds};
use tiles::copy::copy_tile;

// A tile's copies of the four levels.
fn copies<'a>(
    l0: &'a [f32],
    l1: &'a [f32],
    l2: &'a [f32],
    l3: &'a [f32],
    rows: usize,
    r0: usize,
    c0: usize,
    h: usize,
    w: usize,
    t0: &mut [f32],
    t1: &mut [f32],
    t2: &mut [f32],
    t3: &mut [f32],
)
    requires { Cuts (length l0.now) (length l1.now) (length l2.now) (length l3.now)
        (length t0.old) (length t1.old) (length t2.old) (length t3.old) rows r0 c0 h w }
    ensures { Copied l0.now l1.now l2.now l3.now
        t0.old t1.old t2.old t3.old t0.new t1.new t2.new t3.new rows r0 c0 h w }
{
    copy_tile(l0, rows, r0, c0, h, w, t0);
    copy_tile(l1, rows, r0, c0, h, w, t1);
    copy_tile(l2, rows, r0, c0, h, w, t2);
    copy_tile(l3, rows, r0, c0, h, w, t3);
}

// What the copies at the fronts of the four slices list, sized and numbered, after done records.
fn list_copies<'a>(
    set: Set,
    th: Thresholds,
    h: usize,
    w: usize,
    octave: usize,
    t0: &'a [f32],
    t1: &'a [f32],
    t2: &'a [f32],
    t3: &'a [f32],
    i: usize,
    j: usize,
    out: &mut [u8],
    done: usize,
) -> Option<usize>
    requires lent { Lent set th h w octave (length t0.now) (length t1.now) (length t2.now) (length t3.now) }
    requires fits { Fits i j done (length out.old) }
    ensures { filling result out.new ≡ fill_of set i j (found_in set th h w octave
        (take (h * w) t0.now) (take (h * w) t1.now) (take (h * w) t2.now) (take (h * w) t3.now)) done out.old }
{
    let n = h * w;
    tile::fill(
        set,
        th,
        h,
        w,
        octave,
        &t0[..n],
        &t1[..n],
        &t2[..n],
        &t3[..n],
        i,
        j,
        out,
        done,
    )
}

// The tile (i, j): copied, and what it lists after done records.
pub fn turn<'a>(
    set: Set,
    th: Thresholds,
    rows: usize,
    cols: usize,
    octave: usize,
    i: usize,
    j: usize,
    l0: &'a [f32],
    l1: &'a [f32],
    l2: &'a [f32],
    l3: &'a [f32],
    t0: &mut [f32],
    t1: &mut [f32],
    t2: &mut [f32],
    t3: &mut [f32],
    out: &mut [u8],
    done: usize,
) -> Option<usize>
    requires scene_in { SceneIn set th rows cols octave (length l0.now) (length l1.now) (length l2.now) (length l3.now)
        (length t0.old) (length t1.old) (length t2.old) (length t3.old) }
    requires turn { Turn rows cols i j done (length out.old) }
    ensures { TileAfter (scene_maps set th rows cols octave l0.now l1.now l2.now l3.now) i j done
        t0.old t1.old t2.old t3.old t0.new t1.new t2.new t3.new
        out.old out.new result }
{
    let h = tiles::length_of(rows, i);
    let w = tiles::length_of(cols, j);
    let top = tiles::start_of(i);
    let left = tiles::start_of(j);
    copies(l0, l1, l2, l3, rows, top, left, h, w, t0, t1, t2, t3);
    list_copies(set, th, h, w, octave, t0, t1, t2, t3, i, j, out, done)
}
