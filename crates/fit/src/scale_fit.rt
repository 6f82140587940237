// The cubic in sigma of one pixel: its coefficients from four samples, its values, its extreme over a band of scales, and whether an inner level owns
// the extremum.
ghost use Rattle.std.specs.Prelude.{◌≡◌, cond, not, ◌≤◌};
ghost use Rattle.std.specs.Float.{nan};
ghost use Rattle.std.specs.Float.Ieee.{lt};
ghost use Rattle.float.specs.Num.{f0};
ghost use Rattle.fit.specs.Prims.{ours};
ghost use Rattle.fit.specs.Cubic.{row_of, coeffs_of, horner_of, discriminant_of, curvature_of, bends_of};
ghost use Rattle.fit.specs.Band.{band_of, finite_cubic, sign_of, stationary_of, better_by, extreme_of};
ghost use Rattle.fit.specs.Owns.{owns_of};

use crate::Band;
use crate::points::{first_of, is_cubic, is_quadratic, pick, second_of};
use tables::Set;

// Three entries of a table, from the i-th on, weighing the three differences.
pub fn row(transform: &[f32; 12], i: usize, d0: f32, d1: f32, d2: f32) -> f32
    requires { i ≤ 9 }
    ensures { result ≡ row_of transform.now i d0 d1 d2 }
{
    transform[i] * d0 + transform[i + 1] * d1 + transform[i + 2] * d2
}

// The coefficients a, b, c, d that a table of four rows of three entries makes of the samples.
pub fn apply_cubic_transform(transform: &[f32; 12], samples: [f32; 4]) -> [f32; 4]
    ensures { result ≡ coeffs_of transform.now samples }
{
    let last = samples[3];
    let d0 = samples[0] - last;
    let d1 = samples[1] - last;
    let d2 = samples[2] - last;
    [
        row(transform, 0, d0, d1, d2),
        row(transform, 3, d0, d1, d2),
        row(transform, 6, d0, d1, d2),
        row(transform, 9, d0, d1, d2) + last,
    ]
}

// The cubic in sigma.
pub fn compute_poly_coeffs(set: Set, samples: [f32; 4]) -> [f32; 4]
    ensures { result ≡ coeffs_of set.scale samples }
{
    apply_cubic_transform(&set.scale, samples)
}

// The cubic in log2 of sigma, for the corrected size alone.
pub fn compute_geometry_poly_coeffs(set: Set, samples: [f32; 4]) -> [f32; 4]
    ensures { result ≡ coeffs_of set.geometry samples }
{
    apply_cubic_transform(&set.geometry, samples)
}

// The cubic k at s.
pub fn horner(k: [f32; 4], s: f32) -> f32
    ensures { result ≡ horner_of k s }
{
    ((k[0] * s + k[1]) * s + k[2]) * s + k[3]
}

// The discriminant of the derivative of k.
pub fn discriminant(k: [f32; 4]) -> f32
    ensures { result ≡ discriminant_of k }
{
    let bp = 2.0 * k[1];
    bp * bp - 2.0 * (6.0 * k[0]) * k[2]
}

// The second derivative of k at s.
pub fn curvature(k: [f32; 4], s: f32) -> f32
    ensures { result ≡ curvature_of k s }
{
    6.0 * k[0] * s + 2.0 * k[1]
}

// A number has the sign of the polarity's curvature: below 0 at a maximum, above 0 at a minimum.
pub fn bends(x: f32, is_max: bool) -> bool
    ensures { result ≡ bends_of x is_max }
{
    if is_max { x < 0.0 } else { x > 0.0 }
}

// The scales from sigma over the root of 2 to sigma times it, cut to the levels.
pub fn neighbor_scale_band(sigmas: [f32; 4], sigma: f32) -> Band
    ensures { result ≡ band_of sigmas sigma }
{
    Band {
        low: float::max(sigma / 1.4142135, sigmas[0]),
        high: float::min(sigma * 1.4142135, sigmas[3]),
    }
}

// All four numbers are finite: a cubic's coefficients, or a place's samples.
pub fn all_finite(v: [f32; 4]) -> bool
    ensures { result ≡ finite_cubic v }
{
    float::is_finite(v[0])
        & float::is_finite(v[1])
        & float::is_finite(v[2])
        & float::is_finite(v[3])
}

// 1 for a maximum, -1 for a minimum.
pub fn sign_of(is_max: bool) -> f32
    ensures { result ≡ sign_of is_max }
{
    if is_max { 1.0 } else { -1.0 }
}

// A quadratic with the leading coefficient b opens the way of the polarity.
fn opens(b: f32, is_max: bool) -> bool
    ensures { result ≡ cond is_max (lt b f0) (not (lt b f0)) }
{
    if is_max { b < 0.0 } else { !(b < 0.0) }
}

// The stationary point of the polarity asked for, where the cubic has one.
fn stationary(k: [f32; 4], is_max: bool) -> Option<f32>
    ensures { result ≡ stationary_of k is_max }
{
    if is_cubic(k) {
        let d = discriminant(k);
        if d > 0.0 {
            return Some(second_of(k, sign_of(is_max) * quick::sqrt(d)));
        }
        return None;
    }
    if is_quadratic(k) & opens(k[1], is_max) {
        return Some(first_of(k, true, 0.0));
    }
    None
}

// The better of the ends' value and the stationary point's, where that point is strictly inside the band.
fn better(k: [f32; 4], sign: f32, low: f32, high: f32, ends: f32, point: Option<f32>) -> f32
    ensures { result ≡ better_by ours k sign low high ends point }
{
    match point {
        Some(s) => {
            let value = float::max(ends, sign * horner(k, s));
            pick((s > low) & (s < high), value, ends)
        }
        None => ends,
    }
}

fn not_a_number() -> f32
    ensures { result ≡ nan }
{
    0.0 / 0.0
}

// The largest value of k over the band for a maximum, the smallest for a minimum; NaN where a coefficient is not finite.
pub fn band_extreme(k: [f32; 4], low: f32, high: f32, is_max: bool) -> f32
    ensures { result ≡ extreme_of k low high is_max }
{
    if !all_finite(k) {
        return not_a_number();
    }
    let sign = sign_of(is_max);
    let ends = float::max(sign * horner(k, low), sign * horner(k, high));
    let point = stationary(k, is_max);
    sign * better(k, sign, low, high, ends, point)
}

// An inner level carries the strongest sample of the polarity.
pub fn owns_scale_extremum(samples: [f32; 4], is_max: bool) -> bool
    ensures { result ≡ owns_of samples is_max }
{
    let low = samples[0];
    let first = samples[1];
    let second = samples[2];
    let high = samples[3];
    if is_max {
        float::max(first, second) > float::max(low, high)
    } else {
        float::min(first, second) < float::min(low, high)
    }
}
