// One tile of a scene: what it lists goes, sized and with the tile's numbers, after the records of the tiles before it.
#![tactic(auto)]

mod list; // list.rt: the tile's spot list
mod place; // place.rt: its records, sized and numbered

ghost use Rattle.std.specs.Prelude.{◌≡◌, length};
ghost use Rattle.tile.specs.Tile.{Small, found_in, filling, fill_of, Fits};

use tables::{Set, Thresholds};

// How many bytes a numbered record has: two u16, and the sized record's.
pub const NUMBERED_WIDTH: usize = 64;

// How many bytes a numbered record has more than a spot's.
const MORE: usize = 16;

// What a tile lists, sized and numbered, after done records: answers how many are now written, its own counted, or `None` where they have no room.
pub fn fill<'a>(
    set: Set,
    th: Thresholds,
    h: usize,
    w: usize,
    octave: usize,
    t0: &'a [f32],
    t1: &'a [f32],
    t2: &'a [f32],
    t3: &'a [f32],
    i: usize,
    j: usize,
    out: &mut [u8],
    done: usize,
) -> Option<usize>
    requires small { Small set th h w octave (length t0.now) (length t1.now) (length t2.now) (length t3.now) }
    requires fits { Fits i j done (length out.old) }
    ensures { filling result out.new
        ≡ fill_of set i j (found_in set th h w octave t0.now t1.now t2.now t3.now) done out.old }
{
    let mut held = [0u8; 131040];
    let n = list::found(set, th, h, w, octave, t0, t1, t2, t3, &mut held);
    let base = done * NUMBERED_WIDTH;
    let free = (out.len() - base) / NUMBERED_WIDTH;
    if free < n {
        return None;
    }
    list::lay(
        set,
        th,
        h,
        w,
        octave,
        t0,
        t1,
        t2,
        t3,
        &held,
        out,
        base + MORE * n,
        n,
    );
    place::place_all(set, i, j, out, base, n);
    Some(done + n)
}
