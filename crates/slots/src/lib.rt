// The lines of a column of four levels, from its own offset and those of the columns beside it: a map and a ring of columns share them.
#![tactic(auto)]

ghost use Rattle.std.specs.Prelude.{◌≡◌, ◌+◌, ◌≤◌, length};
ghost use Rattle.std.specs.Float.{nan};
ghost use Rattle.columns.specs.Line.{Written};
ghost use Rattle.columns.specs.Sample.{stencil_at, Reach, Reaches};
ghost use Rattle.rivals.specs.Window.{window_of};
ghost use Rattle.slots.specs.Column.{Rings, line_at, read_at, Filled};

use columns::Window;
use columns::check::{check_line, guess_line};
use columns::coef::coef_line;
use columns::gate::gate_line;
use columns::sample::{log_lines, stencil};
use columns::stat::stat_line;
use grid::Levels;
use tables::{Set, Thresholds};

// What the gates ask of a stationary point.
fn window_of(th: Thresholds) -> Window
    ensures { result ≡ window_of th }
{
    Window {
        low: th.low,
        high: th.high,
        peak: th.peak,
        wild: fit::stream::is_within(th.low, th.high, 0.0),
    }
}

// From the samples on: cubics, roots, points and words.
pub fn points<'a>(
    set: Set,
    th: Thresholds,
    n: usize,
    z: usize,
    s0: &'a [f32; 256],
    s1: &'a [f32; 256],
    s2: &'a [f32; 256],
    s3: &'a [f32; 256],
    a: &mut [f32; 780],
    b: &mut [f32; 780],
    c: &mut [f32; 780],
    d: &mut [f32; 780],
    p: &mut [f32; 1560],
    v: &mut [f32; 1560],
    w: &mut [u32; 780],
) -> u32
    requires n_bound { (n ≤ 256) × (z + n ≤ 780) }
    ensures { Filled set th (line_at s0.now s1.now s2.now s3.now) z n
        a.old b.old c.old d.old p.old v.old w.old
        a.new b.new c.new d.new p.new v.new w.new result }
{
    let mut q = [0.0f32; 256];
    let mut g = [0.0f32; 256];
    let mut r = [0.0f32; 256];
    coef_line(&set.scale, n, z, s0, s1, s2, s3, a, b, c, d, &mut q);
    guess_line(n, &q, &mut g);
    check_line(n, &q, &g, &mut r);
    stat_line(-1.0, n, z, z, a, b, c, d, &r, p, v);
    stat_line(1.0, n, z, 780 + z, a, b, c, d, &r, p, v);
    gate_line(window_of(th), n, z, s0, s1, s2, s3, &r, p, v, w)
}

// n places of a column, in the slot at z; answers a number that none of their words exceeds.
pub fn column(
    levels: &Levels,
    left: usize,
    mid: usize,
    right: usize,
    set: Set,
    th: Thresholds,
    n: usize,
    z: usize,
    a: &mut [f32; 780],
    b: &mut [f32; 780],
    c: &mut [f32; 780],
    d: &mut [f32; 780],
    p: &mut [f32; 1560],
    v: &mut [f32; 1560],
    w: &mut [u32; 780],
) -> u32
    requires n_bound { (n ≤ 256) × (z + n ≤ 780) }
    requires reach { Reaches levels.now left mid right n }
    ensures { Filled set th (read_at levels.now.l0.now levels.now.l1.now levels.now.l2.now levels.now.l3.now set.sigmas left mid right) z n
        a.old b.old c.old d.old p.old v.old w.old
        a.new b.new c.new d.new p.new v.new w.new result }
{
    let g0 = set.sigmas[0];
    let g1 = set.sigmas[1];
    let g2 = set.sigmas[2];
    let g3 = set.sigmas[3];
    let mut s0 = [0.0f32; 256];
    let mut s1 = [0.0f32; 256];
    let mut s2 = [0.0f32; 256];
    let mut s3 = [0.0f32; 256];
    log_lines(
        levels,
        left,
        mid,
        right,
        n,
        g0 * g0,
        g1 * g1,
        g2 * g2,
        g3 * g3,
        &mut s0,
        &mut s1,
        &mut s2,
        &mut s3,
    );
    points(set, th, n, z, &s0, &s1, &s2, &s3, a, b, c, d, p, v, w)
}

// A level's samples of n places, with a squared sigma.
fn sample_line(
    l: &[f32],
    left: usize,
    mid: usize,
    right: usize,
    n: usize,
    square: f32,
    s: &mut [f32; 256],
)
    requires n_bound { n ≤ 256 }
    requires reach { Reach (length l.now) left mid right n }
    ensures { Written nan s.old s.new 0 n (λ i x. x ≡ stencil_at l.now (left + i) (mid + i) (right + i) square) }
{
    for i in 0..n {
        s[i] = stencil(l, left + i, mid + i, right + i, square);
    }
}

// The same, the levels read one after the other: the columns of a ring of 4,096 rows lie a way of the nearest cache apart, and twelve of them read at once
// push each other out of it.
pub fn own_lines(
    levels: &Levels,
    left: usize,
    mid: usize,
    right: usize,
    set: Set,
    th: Thresholds,
    n: usize,
    z: usize,
    a: &mut [f32; 780],
    b: &mut [f32; 780],
    c: &mut [f32; 780],
    d: &mut [f32; 780],
    p: &mut [f32; 1560],
    v: &mut [f32; 1560],
    w: &mut [u32; 780],
) -> u32
    requires n_bound { (n ≤ 256) × (z + n ≤ 780) }
    requires reach { Reaches levels.now left mid right n }
    ensures { Filled set th (read_at levels.now.l0.now levels.now.l1.now levels.now.l2.now levels.now.l3.now set.sigmas left mid right) z n
        a.old b.old c.old d.old p.old v.old w.old
        a.new b.new c.new d.new p.new v.new w.new result }
{
    let g0 = set.sigmas[0];
    let g1 = set.sigmas[1];
    let g2 = set.sigmas[2];
    let g3 = set.sigmas[3];
    let mut s0 = [0.0f32; 256];
    let mut s1 = [0.0f32; 256];
    let mut s2 = [0.0f32; 256];
    let mut s3 = [0.0f32; 256];
    sample_line(levels.l0, left, mid, right, n, g0 * g0, &mut s0);
    sample_line(levels.l1, left, mid, right, n, g1 * g1, &mut s1);
    sample_line(levels.l2, left, mid, right, n, g2 * g2, &mut s2);
    sample_line(levels.l3, left, mid, right, n, g3 * g3, &mut s3);
    points(set, th, n, z, &s0, &s1, &s2, &s3, a, b, c, d, p, v, w)
}
