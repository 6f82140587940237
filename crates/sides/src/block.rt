// The pixels of a part of a column that may list something, from four columns of a ring and the one that follows them.
ghost use Rattle.std.specs.Prelude.{◌≡◌, ◌+◌, ◌≤◌, ◌<◌, length};
ghost use Rattle.samples.specs.Map.{four_in};
ghost use Rattle.gather.specs.Gather.{Long};
ghost use Rattle.slots.specs.Column.{Rings};
ghost use Rattle.rivals.specs.Ready.{Slot};
ghost use Rattle.nine.specs.Nine.{three_of, Beside};
ghost use Rattle.sides.specs.Beside.{Left};

use crate::accept::accept_list;
use crate::own::own_list;
use crate::side::side_list;
use gather::fill_list;
use grid::Levels;
use rivals::pack::{open_line, pack_line};
use slots::own_lines;
use tables::{Set, Thresholds};

// Those left of a part with candidates, whose lines stand in the slot at 0.
fn listed<'a>(
    ring: &Levels<'a>,
    next: &Levels<'a>,
    u: usize,
    x: usize,
    y: usize,
    z: usize,
    t: usize,
    set: Set,
    th: Thresholds,
    n: usize,
    a: &mut [f32; 780],
    b: &mut [f32; 780],
    c: &mut [f32; 780],
    d: &mut [f32; 780],
    p: &[f32; 1560],
    v: &[f32; 1560],
    w: &[u32; 780],
    keep: &mut [u8; 256],
)
    requires beside { Beside (four_in ring.now) (four_in next.now) u x y z t n }
    requires n_bound { n ≤ 254 }
    requires slot { Slot set th (three_of (four_in ring.now) (four_in next.now) u x y z t set.sigmas 1) 0 (n + 2)
        a.old b.old c.old d.old p.now v.now w.now }
    ensures { Left set th (three_of (four_in ring.now) (four_in next.now) u x y z t set.sigmas) n keep.new
        × Long a.new b.new c.new d.new }
{
    let mut codes = [0u32; 512];
    let g = set.sigmas;
    open_line(0, w, keep);
    let m = pack_line(n, 0, w, &mut codes);
    let k = own_list(g, m, a, b, c, d, p, v, &mut codes);
    fill_list(
        ring, ring, u, x, y, g, &set.scale, n, k, 260, &codes, a, b, c, d,
    );
    fill_list(
        ring, next, y, z, t, g, &set.scale, n, k, 520, &codes, a, b, c, d,
    );
    let o = side_list(g, k, a, b, c, d, p, v, &mut codes);
    accept_list(set, th.ratio, o, a, b, c, d, p, &codes, keep);
}

// 1 for each of the n pixels from place 1 on that may list something, by way of the lent rings. The columns before, at and after them begin at x, y and z of the
// ring, the one before those at u, and the one after them at t of the slices that follow.
pub fn mark_block<'a>(
    ring: &Levels<'a>,
    next: &Levels<'a>,
    u: usize,
    x: usize,
    y: usize,
    z: usize,
    t: usize,
    set: Set,
    th: Thresholds,
    n: usize,
    a: &mut [f32; 780],
    b: &mut [f32; 780],
    c: &mut [f32; 780],
    d: &mut [f32; 780],
    p: &mut [f32; 1560],
    v: &mut [f32; 1560],
    w: &mut [u32; 780],
    keep: &mut [u8; 256],
)
    requires beside { Beside (four_in ring.now) (four_in next.now) u x y z t n }
    requires n_bound { n ≤ 254 }
    ensures { Left set th (three_of (four_in ring.now) (four_in next.now) u x y z t set.sigmas) n keep.new
        × Rings a.new b.new c.new d.new p.new v.new w.new }
{
    let any = own_lines(ring, x, y, z, set, th, n + 2, 0, a, b, c, d, p, v, w);
    if any == 0 {
        open_line(0, w, keep);
        return;
    }
    listed(
        ring, next, u, x, y, z, t, set, th, n, a, b, c, d, p, v, w, keep,
    );
}
