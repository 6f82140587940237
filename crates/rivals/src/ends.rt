// Candidates that a neighbour reaches at an end of the band, and those that the refinement refuses.
ghost use Rattle.std.specs.Prelude.{◌≡◌, true, false, cond, ◌||◌, ◌+◌, ◌%◌, ◌≤◌, ◌<◌, length};
ghost use Rattle.fit.specs.Cubic.{◌at◌};
ghost use Rattle.refine.specs.Refine.{refine_of};
ghost use Rattle.columns.specs.Stat.{cubic_in};
ghost use Rattle.rivals.specs.List.{Coded, Raised};
ghost use Rattle.rivals.specs.Ends.{ends, ended_of, nine_in, spot_of, accepted_of, survives_of};

use crate::list::raise_codes;
use fit::Band;
use fit::scale_fit::sign_of;
use refine::Spot;
use tables::Set;

// The cubic at place m of the rings.
fn cubic_at(a: &[f32; 780], b: &[f32; 780], c: &[f32; 780], d: &[f32; 780], m: usize) -> [f32; 4]
    requires { m < 780 }
    ensures { result ≡ cubic_in a.now b.now c.now d.now m }
{
    [a[m], b[m], c[m], d[m]]
}

// The cubic k reaches val at one of the band's ends, with the polarity's sign.
fn is_ending(k: [f32; 4], sign: f32, val: f32, band: Band) -> bool
    ensures { result ≡ ends k sign val band }
{
    (val <= sign * fit::scale_fit::horner(k, band.low))
        | (val <= sign * fit::scale_fit::horner(k, band.high))
}

// One of the cubics at m and m + 2 does.
pub fn is_either(
    a: &[f32; 780],
    b: &[f32; 780],
    c: &[f32; 780],
    d: &[f32; 780],
    m: usize,
    sign: f32,
    val: f32,
    band: Band,
) -> bool
    requires { m + 2 < 780 }
    ensures { result ≡ (ends (cubic_in a.now b.now c.now d.now m) sign val band
        || ends (cubic_in a.now b.now c.now d.now (m + 2)) sign val band) }
{
    is_ending(cubic_at(a, b, c, d, m), sign, val, band)
        | is_ending(cubic_at(a, b, c, d, m + 2), sign, val, band)
}

// One of the three from m on does.
pub fn is_three(
    a: &[f32; 780],
    b: &[f32; 780],
    c: &[f32; 780],
    d: &[f32; 780],
    m: usize,
    sign: f32,
    val: f32,
    band: Band,
) -> bool
    requires { m + 2 < 780 }
    ensures { result ≡ (ends (cubic_in a.now b.now c.now d.now m) sign val band
        || ends (cubic_in a.now b.now c.now d.now (m + 1)) sign val band
        || ends (cubic_in a.now b.now c.now d.now (m + 2)) sign val band) }
{
    is_ending(cubic_at(a, b, c, d, m), sign, val, band)
        | is_ending(cubic_at(a, b, c, d, m + 1), sign, val, band)
        | is_ending(cubic_at(a, b, c, d, m + 2), sign, val, band)
}

// A neighbour of the candidate at place h + 1 reaches its value val.
fn is_ended(
    x: usize,
    y: usize,
    z: usize,
    h: usize,
    a: &[f32; 780],
    b: &[f32; 780],
    c: &[f32; 780],
    d: &[f32; 780],
    sign: f32,
    val: f32,
    band: Band,
) -> bool
    requires x_bound { (x ≤ 520) × (y ≤ 520) }
    requires z_bound { (z ≤ 520) × (h ≤ 253) }
    ensures { result ≡ ended_of x y z h a.now b.now c.now d.now sign val band }
{
    is_three(a, b, c, d, x + h, sign, val, band)
        | is_either(a, b, c, d, y + h, sign, val, band)
        | is_three(a, b, c, d, z + h, sign, val, band)
}

// The cubics at the nine places around place h + 1 of the slot y, by rows.
pub fn nine_cubics(
    x: usize,
    y: usize,
    z: usize,
    h: usize,
    a: &[f32; 780],
    b: &[f32; 780],
    c: &[f32; 780],
    d: &[f32; 780],
) -> [[f32; 4]; 9]
    requires x_bound { (x ≤ 520) × (y ≤ 520) }
    requires z_bound { (z ≤ 520) × (h ≤ 253) }
    ensures { result ≡ nine_in x y z h a.now b.now c.now d.now }
{
    [
        cubic_at(a, b, c, d, x + h),
        cubic_at(a, b, c, d, y + h),
        cubic_at(a, b, c, d, z + h),
        cubic_at(a, b, c, d, x + h + 1),
        cubic_at(a, b, c, d, y + h + 1),
        cubic_at(a, b, c, d, z + h + 1),
        cubic_at(a, b, c, d, x + h + 2),
        cubic_at(a, b, c, d, y + h + 2),
        cubic_at(a, b, c, d, z + h + 2),
    ]
}

// The refinement accepts a spot with this sigma and polarity.
pub fn accepts(set: Set, ratio: f32, k: &[[f32; 4]; 9], sigma: f32, is_max: bool) -> bool
    ensures { result ≡ accepted_of (refine_of set ratio k.now (spot_of sigma is_max)) }
{
    let spot = Spot {
        x: 0.0,
        y: 0.0,
        sigma,
        peak: 0.0,
        octave: 0,
        index: 0,
        max: is_max,
        dx: 0.0,
        dy: 0.0,
    };
    refine::refine::refine_keypoint_2d(set, spot, k, ratio).is_some()
}

// The candidate e is neither reached at an end of its band nor refused.
fn survives(
    set: Set,
    ratio: f32,
    x: usize,
    y: usize,
    z: usize,
    e: usize,
    a: &[f32; 780],
    b: &[f32; 780],
    c: &[f32; 780],
    d: &[f32; 780],
    p: &[f32; 1560],
    v: &[f32; 1560],
) -> bool
    requires x_bound { (x ≤ 520) × (y ≤ 520) }
    requires z_bound { (z ≤ 520) × (e ≤ 1033) }
    requires e_bound { e % 780 ≤ 253 }
    ensures { result ≡ survives_of set ratio x y z e a.now b.now c.now d.now p.now v.now }
{
    let h = e % 780;
    let is_max = 780 <= e;
    let sigmas = set.sigmas;
    let sigma = p[y + e + 1];
    let band = fit::scale_fit::neighbor_scale_band(sigmas, sigma);
    if is_ended(x, y, z, h, a, b, c, d, sign_of(is_max), v[y + e + 1], band) {
        return false;
    }
    let nine = nine_cubics(x, y, z, h, a, b, c, d);
    accepts(set, ratio, &nine, sigma, is_max)
}

// 1 for each pixel that has a candidate left.
// Stays: the list comes with its length and is cut here, where each caller would cut it instead.
pub fn mark_list(
    set: Set,
    ratio: f32,
    x: usize,
    y: usize,
    z: usize,
    k: usize,
    a: &[f32; 780],
    b: &[f32; 780],
    c: &[f32; 780],
    d: &[f32; 780],
    p: &[f32; 1560],
    v: &[f32; 1560],
    codes: &[u32; 512],
    keep: &mut [u8; 256],
)
    requires x_bound { (x ≤ 520) × (y ≤ 520) }
    requires z_bound { (z ≤ 520) × (k ≤ 512) }
    requires coded { Coded codes.now k }
    ensures { Raised (λ e. survives_of set ratio x y z e a.now b.now c.now d.now p.now v.now ≡ false)
        codes.now k keep.old keep.new }
{
    raise_codes(&codes[..k], keep, |e| {
        survives(set, ratio, x, y, z, e, a, b, c, d, p, v)
    });
}
