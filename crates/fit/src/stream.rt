// The envelope of four samples as the streaming pass has it. Each test is a value and each choice a select: no function here returns early.
ghost use Rattle.std.specs.Prelude.{◌≡◌, cond};
ghost use Rattle.std.specs.Float.Ieee.{lt};
ghost use Rattle.float.specs.Num.{f0};
ghost use Rattle.fit.specs.Prims.{ours};
ghost use Rattle.fit.specs.Envelope.{within, ends_by, put_low, put_high, turn_of, turns_of, shape_of, envelope_of};

use crate::Envelope;
use crate::points::{first_of, is_cubic, is_inside, is_quadratic, second_of};
use crate::scale_fit::{apply_cubic_transform, curvature, discriminant, horner};

// s lies in the closed range.
pub fn is_within(low: f32, high: f32, s: f32) -> bool
    ensures { result ≡ within low high s }
{
    (low <= s) & (s <= high)
}

// The envelope of the two end samples.
pub fn ends(l0: f32, l3: f32) -> Envelope
    ensures { result ≡ ends_by ours l0 l3 }
{
    Envelope {
        emin: float::min(l0, l3),
        emax: float::max(l0, l3),
        smin: 0.0,
        smax: 0.0,
    }
}

// Where the test holds, the least value is v, at s.
pub fn put_low(test: bool, v: f32, s: f32, e: Envelope) -> Envelope
    ensures { result ≡ put_low test v s e }
{
    if test {
        Envelope {
            emin: v,
            smin: s,
            ..e
        }
    } else {
        e
    }
}

// Where the test holds, the largest value is v, at s.
// Stays: beside the one for the least, since the two set other fields, and a flag would choose between the same two values.
pub fn put_high(test: bool, v: f32, s: f32, e: Envelope) -> Envelope
    ensures { result ≡ put_high test v s e }
{
    if test {
        Envelope {
            emax: v,
            smax: s,
            ..e
        }
    } else {
        e
    }
}

// A curvature c is that of a minimum, or of a maximum.
fn curves(c: f32, is_min: bool) -> bool
    ensures { result ≡ cond is_min (lt f0 c) (lt c f0) }
{
    if is_min { c > 0.0 } else { c < 0.0 }
}

// The envelope with the stationary point s, a minimum or a maximum.
fn turn(k: [f32; 4], s: f32, ok: bool, is_min: bool, e: Envelope) -> Envelope
    ensures { result ≡ turn_of k s ok is_min e }
{
    let value = horner(k, s);
    let c = curvature(k, s);
    let valid = ok & float::is_finite(value) & float::is_finite(c) & curves(c, is_min);
    let low = put_low(valid & is_min & (value < e.emin), value, s, e);
    put_high(valid & !is_min & (value > e.emax), value, s, low)
}

// The envelope e with both stationary points.
fn turns(k: [f32; 4], sigmas: [f32; 4], root: f32, e: Envelope) -> Envelope
    ensures { result ≡ turns_of k sigmas root e }
{
    let cubic = is_cubic(k);
    let quadratic = !cubic & is_quadratic(k);
    let roots = cubic & (discriminant(k) > 0.0);
    let first = first_of(k, quadratic, root);
    let second = second_of(k, root);
    let first_ok = (roots | quadratic) & is_inside(sigmas, first);
    let second_ok = roots & is_inside(sigmas, second);
    let one = turn(k, first, first_ok, !quadratic | (k[1] > 0.0), e);
    turn(k, second, second_ok, false, one)
}

// The envelope of the cubic k and the two end samples.
pub fn shape(k: [f32; 4], sigmas: [f32; 4], l0: f32, l3: f32) -> Envelope
    ensures { result ≡ shape_of k sigmas l0 l3 }
{
    turns(
        k,
        sigmas,
        quick::sqrt(float::max(discriminant(k), 0.0)),
        ends(l0, l3),
    )
}

// The envelope of four samples.
pub fn scale_envelope(transform: &[f32; 12], sigmas: [f32; 4], samples: [f32; 4]) -> Envelope
    ensures { result ≡ envelope_of transform.now sigmas samples }
{
    shape(
        apply_cubic_transform(transform, samples),
        sigmas,
        samples[0],
        samples[3],
    )
}
