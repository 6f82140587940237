// What is left of a column.
ghost use Rattle.std.specs.Prelude.{◌≡◌, ℕ, ◌+◌, ◌≤◌, ◌<◌, length, get_or};
ghost use Rattle.rivals.specs.Off.{Thin};

use crate::ends::mark_list;
use crate::near::stat_list;
use crate::pack::{open_line, pack_line};
use tables::Set;

// Those left of a column with candidates.
fn listed(
    set: Set,
    ratio: f32,
    n: usize,
    x: usize,
    y: usize,
    z: usize,
    a: &[f32; 780],
    b: &[f32; 780],
    c: &[f32; 780],
    d: &[f32; 780],
    p: &[f32; 1560],
    v: &[f32; 1560],
    w: &[u32; 780],
    keep: &mut [u8; 256],
)
    requires x_bound { (x ≤ 520) × (y ≤ 520) }
    requires z_bound { (z ≤ 520) × (n ≤ 254) }
    ensures { Thin set ratio n x y z a.now b.now c.now d.now p.now v.now w.now keep.new }
{
    let mut codes = [0u32; 512];
    let sigmas = set.sigmas;
    open_line(y, w, keep);
    let m = pack_line(n, y, w, &mut codes);
    let k = stat_list(sigmas, x, y, z, m, p, v, &mut codes);
    mark_list(set, ratio, x, y, z, k, a, b, c, d, p, v, &codes, keep);
}

// 1 for each of the n pixels of the column in slot y that may list something; any is at least each of their words.
pub fn thin(
    set: Set,
    ratio: f32,
    n: usize,
    any: u32,
    x: usize,
    y: usize,
    z: usize,
    a: &[f32; 780],
    b: &[f32; 780],
    c: &[f32; 780],
    d: &[f32; 780],
    p: &[f32; 1560],
    v: &[f32; 1560],
    w: &[u32; 780],
    keep: &mut [u8; 256],
)
    requires x_bound { (x ≤ 520) × (y ≤ 520) }
    requires z_bound { (z ≤ 520) × (n ≤ 254) }
    requires by_index { (i : ℕ) → i < n → get_or w.now (y + i + 1) 0 ≤ any }
    ensures { Thin set ratio n x y z a.now b.now c.now d.now p.now v.now w.now keep.new }
{
    if any == 0 {
        open_line(y, w, keep);
    } else {
        listed(set, ratio, n, x, y, z, a, b, c, d, p, v, w, keep);
    }
}
