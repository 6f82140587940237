// The values of nine cubics at a sigma, and whether their Hessian is an edge's.
ghost use Rattle.std.specs.Prelude.{◌≡◌, ◌<◌};
ghost use Rattle.spatial.specs.Edge.{value_of, values_of, edge_of};

use fit::scale_fit::bends;

// The value at s of the i-th cubic, by powers of s.
fn value_at(k: &[[f32; 4]; 9], s: f32, i: usize) -> f32
    requires { i < 9 }
    ensures { result ≡ value_of k.now s i }
{
    let ss = s * s;
    let sss = ss * s;
    k[i][0] * sss + k[i][1] * ss + k[i][2] * s + k[i][3]
}

// The nine values at s.
pub fn values_at(k: &[[f32; 4]; 9], s: f32) -> [f32; 9]
    ensures { result ≡ values_of k.now s }
{
    [
        value_at(k, s, 0),
        value_at(k, s, 1),
        value_at(k, s, 2),
        value_at(k, s, 3),
        value_at(k, s, 4),
        value_at(k, s, 5),
        value_at(k, s, 6),
        value_at(k, s, 7),
        value_at(k, s, 8),
    ]
}

// The Hessian of the nine values is no edge's.
pub fn passes_edge(v: [f32; 9], most: f32, is_max: bool) -> bool
    ensures { result ≡ edge_of v most is_max }
{
    let gxx = v[3] - 2.0 * v[4] + v[5];
    let gyy = v[1] - 2.0 * v[4] + v[7];
    let gxy = 0.25 * (v[0] + v[8] - v[6] - v[2]);
    let tr = gxx + gyy;
    let det = gxx * gyy - gxy * gxy;
    let ratio = tr * tr / det;
    float::is_finite(gxx)
        & float::is_finite(gyy)
        & float::is_finite(gxy)
        & float::is_finite(tr)
        & float::is_finite(det)
        & !(det < 1e-10)
        & bends(tr, is_max)
        & float::is_finite(ratio)
        & !(ratio > most)
}
