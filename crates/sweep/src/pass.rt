// A block of rows, column by column.
ghost use Rattle.std.specs.Prelude.{◌≡◌, ℕ, ◌+◌, ◌-◌, ◌≤◌, ◌<◌, length, get_or};
ghost use Rattle.samples.specs.Map.{maps_in};
ghost use Rattle.sweep.specs.Ruled.{Ruled, Before, Passed};

use marks::put_line;
use rivals::thin::thin;
use samples::map::Map;
use slots::column;
use tables::Set;

// The marks of the column col, whose lines stand in the slot at y, between those of its neighbours at x and z.
fn mark<'a>(
    set: Set,
    ratio: f32,
    n: usize,
    any: u32,
    x: usize,
    y: usize,
    z: usize,
    a: &'a [f32; 780],
    b: &'a [f32; 780],
    c: &'a [f32; 780],
    d: &'a [f32; 780],
    p: &'a [f32; 1560],
    v: &'a [f32; 1560],
    w: &'a [u32; 780],
    col: usize,
    marks: &mut [u8; 131072],
)
    requires x_bound { (x ≤ 520) × (y ≤ 520) }
    requires z_bound { (z ≤ 520) × (n ≤ 254) }
    requires col_bound { col < 4096 }
    requires by_index { (i : ℕ) → i < n → get_or w.now (y + i + 1) 0 ≤ any }
    ensures { Passed set ratio n x y z a.now b.now c.now d.now p.now v.now w.now col
        marks.old marks.new }
{
    let mut keep = [0u8; 256];
    thin(set, ratio, n, any, x, y, z, a, b, c, d, p, v, w, &mut keep);
    put_line(col, &keep, marks);
}

// The lines of the column col and the marks of the one before it, for the block of n judged rows from the judged row j on.
fn step(
    map: &Map,
    j: usize,
    n: usize,
    col: usize,
    before: u32,
    a: &mut [f32; 780],
    b: &mut [f32; 780],
    c: &mut [f32; 780],
    d: &mut [f32; 780],
    p: &mut [f32; 1560],
    v: &mut [f32; 1560],
    w: &mut [u32; 780],
    marks: &mut [u8; 131072],
) -> u32
    requires n_bound { (j + n + 8 ≤ map.now.frame.rows) × (n ≤ 254) }
    requires le_col { (3 ≤ col) × (col + 3 < map.now.frame.cols) }
    requires before { Before (maps_in map.now) j n col before a.old b.old c.old d.old p.old v.old w.old marks.old }
    ensures { Before (maps_in map.now) j n (col + 1) result
        a.new b.new c.new d.new p.new v.new w.new marks.new }
{
    let rows = map.frame.rows;
    let mid = col * rows + j + 3;
    let any = column(
        &map.levels,
        mid - rows,
        mid,
        mid + rows,
        map.set,
        map.thresholds,
        n + 2,
        col % 3 * 260,
        a,
        b,
        c,
        d,
        p,
        v,
        w,
    );
    if col < 5 {
        return any;
    }
    mark(
        map.set,
        map.thresholds.ratio,
        n,
        before,
        (col + 1) % 3 * 260,
        (col + 2) % 3 * 260,
        col % 3 * 260,
        a,
        b,
        c,
        d,
        p,
        v,
        w,
        col - 1,
        marks,
    );
    any
}

// Marks the block of n judged rows from the judged row j on.
pub fn sweep(map: &Map, j: usize, n: usize, marks: &mut [u8; 131072])
    requires n_bound { (j + n + 8 ≤ map.now.frame.rows) × (n ≤ 254) }
    ensures { (length marks.new ≡ 131072)
        × Ruled (maps_in map.now) j n (map.now.frame.cols - 4) marks.new }
{
    let mut a = [0.0f32; 780];
    let mut b = [0.0f32; 780];
    let mut c = [0.0f32; 780];
    let mut d = [0.0f32; 780];
    let mut p = [0.0f32; 1560];
    let mut v = [0.0f32; 1560];
    let mut w = [0u32; 780];
    let mut before: u32 = 0;
    for col in 3..map.frame.cols.saturating_sub(3) {
        before = step(
            map, j, n, col, before, &mut a, &mut b, &mut c, &mut d, &mut p, &mut v, &mut w, marks,
        );
    }
}
