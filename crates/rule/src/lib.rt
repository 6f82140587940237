// The pixels of the judged column that may list something: blocks of 254 of them, each by its own lines and by the cubics beside its candidates.
#![tactic(auto)]

ghost use Rattle.std.specs.Prelude.{◌≡◌, ◌+◌, ◌≤◌, ◌<◌, length};
ghost use Rattle.samples.specs.Map.{four_in};
ghost use Rattle.slots.specs.Column.{Rings};
ghost use Rattle.ring.specs.Lent.{height_of};
ghost use Rattle.ring.specs.Given.{RuledIn};
ghost use Rattle.rule.specs.Rule.{RuledPart, Copied};

use ring::column::Column;
use ring::slot;
use sides::block::mark_block;

// The block of n judged pixels from the j-th on.
fn block(
    column: &Column,
    j: usize,
    n: usize,
    a: &mut [f32; 780],
    b: &mut [f32; 780],
    c: &mut [f32; 780],
    d: &mut [f32; 780],
    p: &mut [f32; 1560],
    v: &mut [f32; 1560],
    w: &mut [u32; 780],
    keep: &mut [u8; 256],
)
    requires le_position { 6 ≤ column.now.state.position }
    requires n_bound { (n ≤ 254) × (j + n + 8 ≤ column.now.state.rows) }
    ensures { RuledPart column.now.state (four_in column.now.ring) (four_in column.now.given) j n keep.new
        × Rings a.new b.new c.new d.new p.new v.new w.new }
{
    let s = &column.state;
    let u = slot(s.position + 1, s.rows, j + 3);
    let x = slot(s.position + 2, s.rows, j + 3);
    let y = slot(s.position + 3, s.rows, j + 3);
    let z = slot(s.position + 4, s.rows, j + 3);
    let t = j + 3;
    mark_block(
        &column.ring,
        &column.given,
        u,
        x,
        y,
        z,
        t,
        s.set,
        s.thresholds,
        n,
        a,
        b,
        c,
        d,
        p,
        v,
        w,
        keep,
    );
}

// The first n marks of the block go to the column's, from the j-th on.
fn put_marks(j: usize, n: usize, keep: &[u8; 256], marks: &mut [u8; 4096])
    requires n_bound { (n ≤ 256) × (j + n ≤ 4096) }
    ensures { Copied j n keep.now marks.old marks.new }
{
    marks[j..j + n].copy_from_slice(&keep[..n]);
}

// Marks the pixels of the judged column that may list something.
pub fn mark_column(column: &Column, n: usize, marks: &mut [u8; 4096])
    requires { n ≡ height_of column.now.state }
    ensures { RuledIn column.now n marks.new }
{
    let mut a = [0.0f32; 780];
    let mut b = [0.0f32; 780];
    let mut c = [0.0f32; 780];
    let mut d = [0.0f32; 780];
    let mut p = [0.0f32; 1560];
    let mut v = [0.0f32; 1560];
    let mut w = [0u32; 780];
    let mut keep = [0u8; 256];
    for j in (0..n).step_by(254) {
        let m = (n - j).min(254);
        block(
            column, j, m, &mut a, &mut b, &mut c, &mut d, &mut p, &mut v, &mut w, &mut keep,
        );
        put_marks(j, m, &keep, marks);
    }
}
