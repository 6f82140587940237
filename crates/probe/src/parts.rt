// What the exported functions share: the set of a record, lists of numbers and one number of a list.
ghost use Rattle.std.specs.Prelude.{◌≡◌, cond, ◌+◌, ◌≤◌, pos, map};
ghost use Rattle.std.specs.List.{range_with_len};
ghost use Rattle.std.specs.Float.{binary32};
ghost use Rattle.std.specs.Float.Ieee.{of_int};
ghost use Rattle.fit.specs.Cubic.{◌at◌, coeffs_of};
ghost use Rattle.probe.specs.Probe.{held, parts_of, nine_fours, fresh_of, leaves_of, minus_of, number_of, given_of};

use fit::{Envelope, pick};
use profile::Absence;
use refine::Spot;
use refine::lend::Settled;
use tables::Set;

// The set that a record holds; of zeros where the record is refused.
pub fn held_in(bytes: &[u8]) -> Set
    ensures { result ≡ held bytes.now }
{
    tables::read_or_blank(bytes)
}

// The i-th of the numbers; NaN past the end.
pub fn number_at(list: &[f32], i: usize) -> f32
    ensures { result ≡ list.now at i }
{
    if i < list.len() { list[i] } else { 0.0 / 0.0 }
}

// The cubic in log2 of sigma, or the one in sigma.
pub fn cubic(set: Set, geometry: bool, samples: [f32; 4]) -> [f32; 4]
    ensures { result ≡ coeffs_of (cond geometry set.geometry set.scale) samples }
{
    if geometry {
        fit::scale_fit::compute_geometry_poly_coeffs(set, samples)
    } else {
        fit::scale_fit::compute_poly_coeffs(set, samples)
    }
}

// The four numbers of an envelope.
pub fn parts_of(e: Envelope) -> [f32; 4]
    ensures { result ≡ parts_of e }
{
    [e.emin, e.emax, e.smin, e.smax]
}

// N of the numbers, from the i-th on; NaN for what is missing.
pub fn numbers<const N: usize>(list: &[f32], i: usize) -> [f32; N]
    requires { (i ≤ 32) × (N ≤ 32) }
    ensures { result ≡ map (λ j. list.now at (i + j)) (range_with_len 0 N) }
{
    let mut v = [0.0f32; N];
    for j in 0..N {
        v[j] = number_at(list, i + j);
    }
    v
}

// Nine cubics from 36 coefficients by position.
pub fn cubics(k: &[f32]) -> [[f32; 4]; 9]
    ensures { result ≡ nine_fours k.now }
{
    [
        numbers(k, 0),
        numbers(k, 4),
        numbers(k, 8),
        numbers(k, 12),
        numbers(k, 16),
        numbers(k, 20),
        numbers(k, 24),
        numbers(k, 28),
        numbers(k, 32),
    ]
}

// A spot before its refinement.
pub fn fresh(x: f32, y: f32, sigma: f32, peak: f32, is_max: bool) -> Spot
    ensures { result ≡ fresh_of x y sigma peak is_max }
{
    Spot {
        x,
        y,
        sigma,
        peak,
        octave: 0,
        index: 0,
        max: is_max,
        dx: 0.0,
        dy: 0.0,
    }
}

// A byte as a float.
fn float_of(n: u8) -> f32
    ensures { result ≡ of_int binary32 (pos n) }
{
    n as f32
}

// What the refinement leaves, by numbers.
pub fn leaves(left: Settled) -> [f32; 6]
    ensures { result ≡ leaves_of left }
{
    let spot = left.spot;
    [
        pick(left.ok, 1.0, 0.0),
        spot.x,
        spot.y,
        spot.sigma,
        spot.peak,
        float_of(spot.index),
    ]
}

// Minus the number of an absent statistic's cause.
fn minus(why: Absence) -> f32
    ensures { result ≡ minus_of why }
{
    match why {
        Absence::Samples => -1.0,
        Absence::Quotients => -2.0,
        Absence::Line => -3.0,
        Absence::Energy => -4.0,
    }
}

// A statistic's number; where it is absent, minus that of its cause.
pub fn number_of(s: Result<f32, Absence>) -> f32
    ensures { result ≡ number_of s }
{
    match s {
        Ok(x) => x,
        Err(why) => minus(why),
    }
}

// The statistic with this number, or none.
pub fn given(present: bool, x: f32) -> Result<f32, Absence>
    ensures { result ≡ given_of present x }
{
    if present {
        Ok(x)
    } else {
        Err(Absence::Samples)
    }
}
