// The envelope as the reference detector has it, by branches.
ghost use Rattle.std.specs.Prelude.{◌≡◌};
ghost use Rattle.fit.specs.Extrema.{lowered_of, raised_of, single_of, both_of, extrema_of};

use crate::Envelope;
use crate::points::{first_of, is_cubic, is_inside, is_quadratic, second_of};
use crate::scale_fit::{curvature, discriminant, horner};
use crate::stream::{ends, put_high, put_low};

// The envelope with the minimum s, where it counts.
fn lowered(k: [f32; 4], sigmas: [f32; 4], s: f32, e: Envelope) -> Envelope
    ensures { result ≡ lowered_of k sigmas s e }
{
    let v = horner(k, s);
    let c = curvature(k, s);
    let counts = is_inside(sigmas, s)
        & float::is_finite(c)
        & (c > 0.0)
        & float::is_finite(v)
        & (v < e.emin);
    put_low(counts, v, s, e)
}

// The envelope with the maximum s, where it counts.
// Stays: beside the one for a minimum, as the reference has the two; a flag would be asked at each of the lines that differ.
fn raised(k: [f32; 4], sigmas: [f32; 4], s: f32, e: Envelope) -> Envelope
    ensures { result ≡ raised_of k sigmas s e }
{
    let v = horner(k, s);
    let c = curvature(k, s);
    let counts = is_inside(sigmas, s)
        & float::is_finite(c)
        & (c < 0.0)
        & float::is_finite(v)
        & (v > e.emax);
    put_high(counts, v, s, e)
}

// The envelope with the only stationary point s of a quadratic.
fn single(k: [f32; 4], sigmas: [f32; 4], s: f32, e: Envelope) -> Envelope
    ensures { result ≡ single_of k sigmas s e }
{
    let b = k[1];
    let v = horner(k, s);
    let c = curvature(k, s);
    let low = put_low((b > 0.0) & (c > 0.0) & (v < e.emin), v, s, e);
    if is_inside(sigmas, s) & float::is_finite(c) & float::is_finite(v) {
        put_high((b < 0.0) & (c < 0.0) & (v > low.emax), v, s, low)
    } else {
        e
    }
}

// The envelope with the two stationary points of a cubic, where it has them.
fn both(k: [f32; 4], sigmas: [f32; 4], e: Envelope) -> Envelope
    ensures { result ≡ both_of k sigmas e }
{
    let d = discriminant(k);
    if d > 0.0 {
        let root = quick::sqrt(d);
        let low = lowered(k, sigmas, first_of(k, false, root), e);
        raised(k, sigmas, second_of(k, root), low)
    } else {
        e
    }
}

// The envelope of the cubic k and the two end samples.
pub fn polynomial_extrema(k: [f32; 4], sigmas: [f32; 4], l0: f32, l3: f32) -> Envelope
    ensures { result ≡ extrema_of k sigmas l0 l3 }
{
    let e = ends(l0, l3);
    if is_cubic(k) {
        return both(k, sigmas, e);
    }
    if is_quadratic(k) {
        return single(k, sigmas, first_of(k, true, 0.0), e);
    }
    e
}
