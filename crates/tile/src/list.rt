// A tile's spot list: found into the room held and, where that is too small for it, found again into its place.
ghost use Rattle.std.specs.Prelude.{◌≡◌, ◌+◌, ◌*◌, ◌≤◌, length};
ghost use Rattle.std.proofs.lemmas.List.Edits.{sets};
ghost use Rattle.record.specs.Layout.{spot_width, bytes_of};
ghost use Rattle.tile.specs.Tile.{Small, found_in, Holds};

use record::SPOT_WIDTH;
use tables::{Set, Thresholds};

// How many records the room held has place for.
const HELD: usize = 2730;

// How many records a tile lists; those that have room are written to held.
pub fn found<'a>(
    set: Set,
    th: Thresholds,
    h: usize,
    w: usize,
    octave: usize,
    t0: &'a [f32],
    t1: &'a [f32],
    t2: &'a [f32],
    t3: &'a [f32],
    held: &mut [u8],
) -> usize
    requires small { Small set th h w octave (length t0.now) (length t1.now) (length t2.now) (length t3.now) }
    requires held_len { length held.old ≡ 131040 }
    ensures { Holds (found_in set th h w octave t0.now t1.now t2.now t3.now) result held.new }
{
    detect::detect(set, th, h, w, octave, t0, t1, t2, t3, held).unwrap()
}

// A tile's n records are found again, into the bytes from at on.
fn find_again<'a>(
    set: Set,
    th: Thresholds,
    h: usize,
    w: usize,
    octave: usize,
    t0: &'a [f32],
    t1: &'a [f32],
    t2: &'a [f32],
    t3: &'a [f32],
    out: &mut [u8],
    at: usize,
    n: usize,
)
    requires small { Small set th h w octave (length t0.now) (length t1.now) (length t2.now) (length t3.now) }
    requires n_value { n ≡ length (found_in set th h w octave t0.now t1.now t2.now t3.now) }
    requires spot_width_in_bounds { at + n * spot_width ≤ length out.old }
    ensures { out.new
        ≡ sets out.old at (bytes_of (found_in set th h w octave t0.now t1.now t2.now t3.now)) }
{
    let end = at + n * SPOT_WIDTH;
    let _ = detect::detect(set, th, h, w, octave, t0, t1, t2, t3, &mut out[at..end]);
}

// A tile's n records go to the bytes from at on: from the room held, if it has them all.
pub fn lay<'a>(
    set: Set,
    th: Thresholds,
    h: usize,
    w: usize,
    octave: usize,
    t0: &'a [f32],
    t1: &'a [f32],
    t2: &'a [f32],
    t3: &'a [f32],
    held: &'a [u8],
    out: &mut [u8],
    at: usize,
    n: usize,
)
    requires small { Small set th h w octave (length t0.now) (length t1.now) (length t2.now) (length t3.now) }
    requires holds { Holds (found_in set th h w octave t0.now t1.now t2.now t3.now) n held.now }
    requires held_len { length held.now ≡ 131040 }
    requires spot_width_in_bounds { at + n * spot_width ≤ length out.old }
    ensures { out.new
        ≡ sets out.old at (bytes_of (found_in set th h w octave t0.now t1.now t2.now t3.now)) }
{
    if HELD < n {
        find_again(set, th, h, w, octave, t0, t1, t2, t3, out, at, n);
        return;
    }
    words::put_first(out, at, held, n * SPOT_WIDTH);
}
