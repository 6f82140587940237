// The samples at the nine places around a pixel, from the offsets at which five columns lie. They are read level by level and column by column: columns
// often lie so far apart that they push each other out of the nearest cache, and then what is read again is read at once.
#![tactic(auto)]

ghost use Rattle.std.specs.Prelude.{◌≡◌, ◌+◌, ◌*◌, ◌≤◌, ◌<◌, length};
ghost use Rattle.samples.specs.Level.{nine_at, Within};
ghost use Rattle.samples.specs.Map.{four_in, maps_in};
ghost use Rattle.nine.specs.Nine.{Span, Beside, stencil_by, sample_by, down_by, rows_of, level_nine, across_of, turned, three_of, nine_beside};

use grid::Levels;
use samples::map::Map;

// The stencil around mid, whose right pixel may lie in another slice, times a squared sigma.
pub fn stencil<'a>(
    l: &'a [f32],
    r: &'a [f32],
    left: usize,
    mid: usize,
    right: usize,
    square: f32,
) -> f32
    requires le_mid { (1 ≤ mid) × (mid + 1 < length l.now) }
    requires left_in_bounds { (left < length l.now) × (right < length r.now) }
    ensures { result ≡ stencil_by l.now r.now left mid right square }
{
    (l[left] + r[right] + l[mid - 1] + l[mid + 1] - 4.0 * l[mid]) * square
}

// A level's sample.
fn sample_by<'a>(
    l: &'a [f32],
    r: &'a [f32],
    left: usize,
    mid: usize,
    right: usize,
    sigma: f32,
) -> f32
    requires le_mid { (1 ≤ mid) × (mid + 1 < length l.now) }
    requires left_in_bounds { (left < length l.now) × (right < length r.now) }
    ensures { result ≡ sample_by l.now r.now left mid right sigma }
{
    stencil(l, r, left, mid, right, sigma * sigma)
}

// Three of them, one below the other.
fn down_by<'a>(
    l: &'a [f32],
    r: &'a [f32],
    left: usize,
    mid: usize,
    right: usize,
    sigma: f32,
) -> [f32; 3]
    requires { Span (length l.now) (length r.now) left mid right 3 }
    ensures { result ≡ down_by l.now r.now left mid right sigma }
{
    [
        sample_by(l, r, left, mid, right, sigma),
        sample_by(l, r, left + 1, mid + 1, right + 1, sigma),
        sample_by(l, r, left + 2, mid + 2, right + 2, sigma),
    ]
}

// Three columns' samples, by rows.
fn rows_of(a: [f32; 3], b: [f32; 3], c: [f32; 3]) -> [f32; 9]
    ensures { result ≡ rows_of a b c }
{
    [a[0], b[0], c[0], a[1], b[1], c[1], a[2], b[2], c[2]]
}

// A level's samples at the nine places.
fn level_nine<'a>(
    l: &'a [f32],
    r: &'a [f32],
    u: usize,
    x: usize,
    y: usize,
    z: usize,
    t: usize,
    sigma: f32,
) -> [f32; 9]
    requires span { Span (length l.now) (length l.now) u x y 3 }
    requires span_2 { Span (length l.now) (length l.now) x y z 3 }
    requires span_3 { Span (length l.now) (length r.now) y z t 3 }
    ensures { result ≡ level_nine l.now r.now u x y z t sigma }
{
    let a = down_by(l, l, u, x, y, sigma);
    let b = down_by(l, l, x, y, z, sigma);
    let c = down_by(l, r, y, z, t, sigma);
    rows_of(a, b, c)
}

// What four levels have at one of the places.
fn across(p: [f32; 9], q: [f32; 9], v: [f32; 9], w: [f32; 9], i: usize) -> [f32; 4]
    requires { i < 9 }
    ensures { result ≡ across_of p q v w i }
{
    [p[i], q[i], v[i], w[i]]
}

// Four levels' samples at the nine places, place by place.
fn turn(p: [f32; 9], q: [f32; 9], v: [f32; 9], w: [f32; 9]) -> [[f32; 4]; 9]
    ensures { result ≡ turned p q v w }
{
    [
        across(p, q, v, w, 0),
        across(p, q, v, w, 1),
        across(p, q, v, w, 2),
        across(p, q, v, w, 3),
        across(p, q, v, w, 4),
        across(p, q, v, w, 5),
        across(p, q, v, w, 6),
        across(p, q, v, w, 7),
        across(p, q, v, w, 8),
    ]
}

// Those of the nine places around place 1 of the middle one of three columns: u, x, y and z are the offsets of place 0 in four columns of the levels l, t that
// in the column after them, of the levels r.
pub fn nine_by(
    l: &Levels,
    r: &Levels,
    u: usize,
    x: usize,
    y: usize,
    z: usize,
    t: usize,
    g: [f32; 4],
) -> [[f32; 4]; 9]
    requires { Beside (four_in l.now) (four_in r.now) u x y z t 0 }
    ensures { result ≡ nine_beside (three_of (four_in l.now) (four_in r.now) u x y z t g) 0 }
{
    let p = level_nine(l.l0, r.l0, u, x, y, z, t, g[0]);
    let q = level_nine(l.l1, r.l1, u, x, y, z, t, g[1]);
    let v = level_nine(l.l2, r.l2, u, x, y, z, t, g[2]);
    let w = level_nine(l.l3, r.l3, u, x, y, z, t, g[3]);
    turn(p, q, v, w)
}

// Where (row, col) lies in a level.
fn place(rows: usize, row: usize, col: usize) -> usize
    requires { (rows ≤ 4096) × (row ≤ 4096) × (col ≤ 4096) }
    ensures { (result ≡ col * rows + row) × (result ≤ 16781312) }
{
    col * rows + row
}

// The samples of a map at the nine places around (row, col), by rows.
pub fn nine_at(map: &Map, row: usize, col: usize) -> [[f32; 4]; 9]
    requires { Within 2 map.now.frame row col }
    ensures { result ≡ nine_at (maps_in map.now) row col }
{
    let rows = map.frame.rows;
    let u = place(rows, row - 1, col - 2);
    let x = u + rows;
    let y = x + rows;
    let z = y + rows;
    let t = z + rows;
    nine_by(&map.levels, &map.levels, u, x, y, z, t, map.set.sigmas)
}
