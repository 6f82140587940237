// The cubics of a line of samples, a coefficient to a ring, and what stands under the root of each.
ghost use Rattle.std.specs.Prelude.{◌≡◌, cond, [], ◌∷◌, ◌+◌, ◌≤◌, ◌<◌};
ghost use Rattle.std.specs.Float.Ieee.{lt};
ghost use Rattle.float.specs.Small.{abs_of};
ghost use Rattle.float.specs.Num.{f1e_6};
ghost use Rattle.fit.specs.Cubic.{◌at◌, coeffs_of};
ghost use Rattle.columns.specs.Coef.{under_root_of, Stored, Coefs, Sizes};

use fit::pick;
use fit::scale_fit::row;

// x is more than 1e-6 in size.
pub fn beyond(x: f32) -> bool
    ensures { result ≡ lt f1e_6 (abs_of x) }
{
    (x > 1e-6) | (x < -1e-6)
}

// The discriminant of a cubic's derivative, and 0 for a quadratic.
fn under_root(a: f32, b: f32, c: f32) -> f32
    ensures { result ≡ under_root_of a b c }
{
    let bp = 2.0 * b;
    pick(beyond(a), bp * bp - 2.0 * (6.0 * a) * c, 0.0)
}

// One pixel's, at place i of the line that starts at z.
fn coef_at(
    t: &[f32; 12],
    z: usize,
    i: usize,
    l0: f32,
    l1: f32,
    l2: f32,
    l3: f32,
    a: &mut [f32; 780],
    b: &mut [f32; 780],
    c: &mut [f32; 780],
    d: &mut [f32; 780],
    q: &mut [f32; 256],
)
    requires { (i < 256) × (z + i < 780) }
    ensures { Stored (coeffs_of t.now (l0 ∷ l1 ∷ l2 ∷ l3 ∷ [])) (z + i) i
        a.old b.old c.old d.old q.old a.new b.new c.new d.new q.new }
{
    let d0 = l0 - l3;
    let d1 = l1 - l3;
    let d2 = l2 - l3;
    let ka = row(t, 0, d0, d1, d2);
    let kb = row(t, 3, d0, d1, d2);
    let kc = row(t, 6, d0, d1, d2);
    let kd = row(t, 9, d0, d1, d2) + l3;
    a[z + i] = ka;
    b[z + i] = kb;
    c[z + i] = kc;
    d[z + i] = kd;
    q[i] = under_root(ka, kb, kc);
}

// The cubics of the n pixels of a line: a, b, c, d from z on, q from 0 on.
pub fn coef_line(
    t: &[f32; 12],
    n: usize,
    z: usize,
    s0: &[f32; 256],
    s1: &[f32; 256],
    s2: &[f32; 256],
    s3: &[f32; 256],
    a: &mut [f32; 780],
    b: &mut [f32; 780],
    c: &mut [f32; 780],
    d: &mut [f32; 780],
    q: &mut [f32; 256],
)
    requires n_bound { (n ≤ 256) × (z + n ≤ 780) }
    requires sizes { Sizes a.old b.old c.old d.old q.old }
    ensures { Coefs t.now s0.now s1.now s2.now s3.now z n
        a.old b.old c.old d.old q.old a.new b.new c.new d.new q.new }
{
    for i in 0..n {
        coef_at(t, z, i, s0[i], s1[i], s2[i], s3[i], a, b, c, d, q);
    }
}
