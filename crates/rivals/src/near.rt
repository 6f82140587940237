// Candidates that a neighbour's stationary point reaches.
ghost use Rattle.std.specs.Prelude.{◌≡◌, true, cond, ◌||◌, ◌+◌, ◌≤◌, ◌<◌, length};
ghost use Rattle.fit.specs.Cubic.{◌at◌};
ghost use Rattle.rivals.specs.List.{Coded, Thinned};
ghost use Rattle.rivals.specs.Near.{reaches, reached_of};

use crate::list::thin_codes;
use fit::Band;

// The value v at p, inside the band, reaches val.
fn is_reaching(p: f32, v: f32, val: f32, band: Band) -> bool
    ensures { result ≡ reaches band val p v }
{
    (band.low < p) & (p < band.high) & (val <= v)
}

// One of the points at m and m + 2 does.
pub fn is_either(p: &[f32; 1560], v: &[f32; 1560], m: usize, val: f32, band: Band) -> bool
    requires { m + 2 < 1560 }
    ensures { result ≡ (reaches band val (p.now at m) (v.now at m) || reaches band val (p.now at (m + 2)) (v.now at (m + 2))) }
{
    is_reaching(p[m], v[m], val, band) | is_reaching(p[m + 2], v[m + 2], val, band)
}

// One of the three from m on does, in the order in which the machine reads them.
fn is_three(p: &[f32; 1560], v: &[f32; 1560], m: usize, val: f32, band: Band) -> bool
    requires { m + 2 < 1560 }
    ensures { result ≡ (reaches band val (p.now at m) (v.now at m) || reaches band val (p.now at (m + 1)) (v.now at (m + 1))
        || reaches band val (p.now at (m + 2)) (v.now at (m + 2))) }
{
    is_reaching(p[m], v[m], val, band)
        | is_reaching(p[m + 1], v[m + 1], val, band)
        | is_reaching(p[m + 2], v[m + 2], val, band)
}

// A neighbour's point reaches the candidate e.
fn is_reached(
    sigmas: [f32; 4],
    x: usize,
    y: usize,
    z: usize,
    e: usize,
    p: &[f32; 1560],
    v: &[f32; 1560],
) -> bool
    requires x_bound { (x ≤ 520) × (y ≤ 520) }
    requires z_bound { (z ≤ 520) × (e ≤ 1033) }
    ensures { result ≡ reached_of sigmas x y z e p.now v.now }
{
    let val = v[y + e + 1];
    let band = fit::scale_fit::neighbor_scale_band(sigmas, p[y + e + 1]);
    is_three(p, v, x + e, val, band)
        | is_either(p, v, y + e, val, band)
        | is_three(p, v, z + e, val, band)
}

// The candidates that none reaches; answers how many.
// Stays: the list comes with its length and is cut here, where each caller would cut it instead.
pub fn stat_list(
    sigmas: [f32; 4],
    x: usize,
    y: usize,
    z: usize,
    k: usize,
    p: &[f32; 1560],
    v: &[f32; 1560],
    codes: &mut [u32; 512],
) -> usize
    requires x_bound { (x ≤ 520) × (y ≤ 520) }
    requires z_bound { (z ≤ 520) × (k ≤ 512) }
    requires coded { Coded codes.old k }
    ensures { Thinned (λ e. reached_of sigmas x y z e p.now v.now ≡ true) codes.old k codes.new result }
{
    thin_codes(
        &mut codes[..k],
        move |e| is_reached(sigmas, x, y, z, e, p, v),
    )
}
