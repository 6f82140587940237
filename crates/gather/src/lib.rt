// The cubics at the places beside candidates, gathered into a slot of the rings: the samples of one level after the other, then the cubics by them, four places
// of a column at once, which the machine takes in one step. The column after a place may lie in slices of its own.
#![tactic(auto)]

ghost use Rattle.std.specs.Prelude.{◌≡◌, ℕ, ◌+◌, ◌%◌, ◌≤◌, ◌<◌, length};
ghost use Rattle.std.specs.Float.{nan};
ghost use Rattle.float.specs.Num.{◌⊕◌, ◌⊖◌, ◌⊗◌};
ghost use Rattle.fit.specs.Cubic.{◌at◌, row_of};
ghost use Rattle.samples.specs.Map.{four_in};
ghost use Rattle.columns.specs.Line.{Written};
ghost use Rattle.nine.specs.Nine.{Span, Spans, stencil_by};
ghost use Rattle.gather.specs.Gather.{Long, samples_from, Gathered};
ghost use Rattle.gather.specs.Step.{Each, Rows, Put, Tried, sample_from, Lined, Sampled, Lines, lines_at};

use fit::scale_fit::row;
use grid::Levels;
use nine::stencil;

// A level's samples.
fn samples<'a>(
    l: &'a [f32],
    r: &'a [f32],
    left: usize,
    mid: usize,
    right: usize,
    square: f32,
) -> [f32; 4]
    requires le_mid { (1 ≤ mid) × (mid + 4 < length l.now) }
    requires left_in_bounds { (left + 4 ≤ length l.now) × (right + 4 ≤ length r.now) }
    ensures { Each result (λ q. stencil_by l.now r.now (left + q) (mid + q) (right + q) square) }
{
    [
        stencil(l, r, left, mid, right, square),
        stencil(l, r, left + 1, mid + 1, right + 1, square),
        stencil(l, r, left + 2, mid + 2, right + 2, square),
        stencil(l, r, left + 3, mid + 3, right + 3, square),
    ]
}

// The coefficients of one row of the table.
fn rows(t: &[f32; 12], i: usize, d0: [f32; 4], d1: [f32; 4], d2: [f32; 4]) -> [f32; 4]
    requires { i ≤ 9 }
    ensures { Each result (λ q. row_of t.now i (d0 at q) (d1 at q) (d2 at q)) }
{
    [
        row(t, i, d0[0], d1[0], d2[0]),
        row(t, i, d0[1], d1[1], d2[1]),
        row(t, i, d0[2], d1[2], d2[2]),
        row(t, i, d0[3], d1[3], d2[3]),
    ]
}

// What f makes of two fours, pair by pair.
fn pairwise<F: Fn(f32, f32) -> f32>(x: [f32; 4], y: [f32; 4], f: F) -> [f32; 4]
    requires { F.IsAlwaysCallable f }
    ensures { (q : ℕ) → q < 4 → F.post f (x at q) (y at q) (result at q) }
{
    [f(x[0], y[0]), f(x[1], y[1]), f(x[2], y[2]), f(x[3], y[3])]
}

// Four floats go to a line or a ring, from place m on.
fn put<const N: usize>(x: [f32; 4], m: usize, a: &mut [f32; N])
    requires { m + 4 ≤ N }
    ensures { Written nan a.old a.new m 4 (λ q y. y ≡ x at q) }
{
    a[m] = x[0];
    a[m + 1] = x[1];
    a[m + 2] = x[2];
    a[m + 3] = x[3];
}

// The coefficients of four places, from their differences and their last samples.
fn put_rows<'a>(
    t: &'a [f32; 12],
    d0: [f32; 4],
    d1: [f32; 4],
    d2: [f32; 4],
    s: [f32; 4],
    m: usize,
    a: &mut [f32; 780],
    b: &mut [f32; 780],
    c: &mut [f32; 780],
    d: &mut [f32; 780],
)
    requires { m + 4 ≤ 780 }
    ensures { Rows t.now d0 d1 d2 s m
        a.old b.old c.old d.old a.new b.new c.new d.new }
{
    put(rows(t, 0, d0, d1, d2), m, a);
    put(rows(t, 3, d0, d1, d2), m, b);
    put(rows(t, 6, d0, d1, d2), m, c);
    put(pairwise(rows(t, 9, d0, d1, d2), s, |x, y| x + y), m, d);
}

// A level's samples at the four places from the h-th on go to its line, if h is one of the first n.
fn put_samples<'a>(
    l: &'a [f32],
    r: &'a [f32],
    left: usize,
    mid: usize,
    right: usize,
    square: f32,
    n: usize,
    h: usize,
    s: &mut [f32; 260],
)
    requires span { Span (length l.now) (length r.now) left mid right (n + 3) }
    requires n_bound { n ≤ 254 }
    ensures { Lined (sample_from l.now r.now left mid right square) n h s.old s.new }
{
    if n <= h {
        return;
    }
    put(samples(l, r, left + h, mid + h, right + h, square), h, s);
}

// The pixel of a candidate's code.
fn pixel_of(code: u32) -> usize
    ensures { result ≡ code % 780 }
{
    code as usize % 780
}

// A level's samples beside all candidates. Four levels at once would push each other's columns out of the nearest cache.
fn level_list<'a>(
    l: &'a [f32],
    r: &'a [f32],
    left: usize,
    mid: usize,
    right: usize,
    sigma: f32,
    n: usize,
    k: usize,
    codes: &'a [u32; 512],
    s: &mut [f32; 260],
)
    requires span { Span (length l.now) (length r.now) left mid right (n + 3) }
    requires n_bound { (n ≤ 254) × (k ≤ 512) }
    ensures { Sampled (sample_from l.now r.now left mid right (sigma ⊗ sigma)) n k codes.now s.new }
{
    let square = sigma * sigma;
    for i in 0..k {
        put_samples(l, r, left, mid, right, square, n, pixel_of(codes[i]), s);
    }
}

// Four floats of a line, from place h on.
fn four_of(s: &[f32; 260], h: usize) -> [f32; 4]
    requires { h + 4 ≤ 260 }
    ensures { Each result (λ q. s.now at (h + q)) }
{
    [s[h], s[h + 1], s[h + 2], s[h + 3]]
}

// The cubics of the four places from the h-th on, by the lines of the samples, go to place z + h of the rings.
fn put_cubics<'a>(
    t: &'a [f32; 12],
    s0: &'a [f32; 260],
    s1: &'a [f32; 260],
    s2: &'a [f32; 260],
    s3: &'a [f32; 260],
    z: usize,
    h: usize,
    a: &mut [f32; 780],
    b: &mut [f32; 780],
    c: &mut [f32; 780],
    d: &mut [f32; 780],
)
    requires { (h + 4 ≤ 260) × (z + h + 4 ≤ 780) }
    ensures { Put t.now (lines_at s0.now s1.now s2.now s3.now) z h
        a.old b.old c.old d.old a.new b.new c.new d.new }
{
    let x3 = four_of(s3, h);
    let d0 = pairwise(four_of(s0, h), x3, |x, y| x - y);
    let d1 = pairwise(four_of(s1, h), x3, |x, y| x - y);
    let d2 = pairwise(four_of(s2, h), x3, |x, y| x - y);
    put_rows(t, d0, d1, d2, x3, z + h, a, b, c, d);
}

// The same, if h is one of the first n.
fn put_below<'a>(
    t: &'a [f32; 12],
    s0: &'a [f32; 260],
    s1: &'a [f32; 260],
    s2: &'a [f32; 260],
    s3: &'a [f32; 260],
    n: usize,
    z: usize,
    h: usize,
    a: &mut [f32; 780],
    b: &mut [f32; 780],
    c: &mut [f32; 780],
    d: &mut [f32; 780],
)
    requires { (n ≤ 254) × (z ≤ 520) }
    ensures { Tried t.now (lines_at s0.now s1.now s2.now s3.now) z n h
        a.old b.old c.old d.old a.new b.new c.new d.new }
{
    if h < n {
        put_cubics(t, s0, s1, s2, s3, z, h, a, b, c, d);
    }
}

// The cubics beside all candidates, by the lines of the samples.
fn cubic_list<'a>(
    t: &'a [f32; 12],
    s0: &'a [f32; 260],
    s1: &'a [f32; 260],
    s2: &'a [f32; 260],
    s3: &'a [f32; 260],
    n: usize,
    k: usize,
    z: usize,
    codes: &'a [u32; 512],
    a: &mut [f32; 780],
    b: &mut [f32; 780],
    c: &mut [f32; 780],
    d: &mut [f32; 780],
)
    requires { (n ≤ 254) × (k ≤ 512) × (z ≤ 520) }
    ensures { Gathered t.now (lines_at s0.now s1.now s2.now s3.now) z n k codes.now
        a.old b.old c.old d.old a.new b.new c.new d.new }
{
    for i in 0..k {
        put_below(t, s0, s1, s2, s3, n, z, pixel_of(codes[i]), a, b, c, d);
    }
}

// The cubics of the three places from each candidate's own on, in the slot at z: of those candidates whose pixel is one of the first n.
pub fn fill_list<'a>(
    l: &Levels<'a>,
    r: &Levels<'a>,
    left: usize,
    mid: usize,
    right: usize,
    g: [f32; 4],
    t: &[f32; 12],
    n: usize,
    k: usize,
    z: usize,
    codes: &[u32; 512],
    a: &mut [f32; 780],
    b: &mut [f32; 780],
    c: &mut [f32; 780],
    d: &mut [f32; 780],
)
    requires spans { Spans (four_in l.now) (four_in r.now) left mid right (n + 3) }
    requires n_bound { (n ≤ 254) × (k ≤ 512) }
    requires z_bound { z ≤ 520 }
    ensures { Gathered t.now (samples_from (four_in l.now) (four_in r.now) left mid right g) z n k codes.now
        a.old b.old c.old d.old a.new b.new c.new d.new }
{
    let mut s0 = [0.0f32; 260];
    let mut s1 = [0.0f32; 260];
    let mut s2 = [0.0f32; 260];
    let mut s3 = [0.0f32; 260];
    level_list(l.l0, r.l0, left, mid, right, g[0], n, k, codes, &mut s0);
    level_list(l.l1, r.l1, left, mid, right, g[1], n, k, codes, &mut s1);
    level_list(l.l2, r.l2, left, mid, right, g[2], n, k, codes, &mut s2);
    level_list(l.l3, r.l3, left, mid, right, g[3], n, k, codes, &mut s3);
    cubic_list(t, &s0, &s1, &s2, &s3, n, k, z, codes, a, b, c, d);
}
