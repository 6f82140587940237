// The stationary points of a line of cubics, at one polarity.
ghost use Rattle.std.specs.Prelude.{◌+◌, ◌≤◌, ◌≡◌, [], ◌∷◌, length};
ghost use Rattle.columns.specs.Stat.{point_of, height_of, Points};

use crate::coef::beyond;
use fit::pick;

// A stationary point, NaN where there is none, and the value there with the polarity's sign.
// Stays: `point_of` and `height_of` say both numbers, which go into lines of floats.
#[derive(Clone, Copy)]
pub struct Peak {
    pub p: f32,
    pub v: f32,
}

// One cubic's, told the root of what stands under it.
fn turn(sign: f32, a: f32, b: f32, c: f32, d: f32, root: f32) -> Peak
    ensures { (result.p ≡ point_of sign (a ∷ b ∷ c ∷ d ∷ []) root) × (result.v ≡ height_of sign (a ∷ b ∷ c ∷ d ∷ []) root) }
{
    let cubic = beyond(a);
    let bp = 2.0 * b;
    let opens = !cubic & (sign * b < -1e-6);
    let s = pick(cubic, -bp - sign * root, -c) / pick(cubic, 6.0 * a, bp);
    Peak {
        p: pick((root > 0.0) | opens, s, 0.0 / 0.0),
        v: sign * (((a * s + b) * s + c) * s + d),
    }
}

// Those of the n cubics from z on, written from off on.
pub fn stat_line(
    sign: f32,
    n: usize,
    z: usize,
    off: usize,
    a: &[f32; 780],
    b: &[f32; 780],
    c: &[f32; 780],
    d: &[f32; 780],
    r: &[f32; 256],
    p: &mut [f32; 1560],
    v: &mut [f32; 1560],
)
    requires n_bound { (n ≤ 256) × (z + n ≤ 780) }
    requires n_bound_2 { off + n ≤ 1560 }
    ensures { Points sign a.now b.now c.now d.now r.now z off n
        p.old v.old p.new v.new }
{
    for i in 0..n {
        let t = turn(sign, a[z + i], b[z + i], c[z + i], d[z + i], r[i]);
        p[off + i] = t.p;
        v[off + i] = t.v;
    }
}
