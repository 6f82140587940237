// The corrected sigma: how much of a step is taken, the bounded move and the model's, and which of the two.
ghost use Rattle.std.specs.Prelude.{◌≡◌};
ghost use Rattle.size.specs.Correct.{geometry_of, no_blend, blend_of, beta_of, blend_beta_of, bounded_of, weight_of, signed_root, model_of, proposal_of, model_move_of, derivative_of, right_polarity, place_of, sigma_at, accepted, gain_of, gained, flatter, better, chosen_of, trusted, in_range, moved_of, corrected_of};

use crate::Geometry;
use fit::scale_fit::{compute_geometry_poly_coeffs, curvature};
use profile::{Absence, profile_compatibility_statistic};
use tables::{Missing, Set};

// The set's geometry numbers by name.
pub fn geometry_of(set: Set) -> Geometry
    ensures { result ≡ geometry_of set }
{
    Geometry {
        origin: set.numbers[0],
        epsilon: set.numbers[1],
        tmin: set.numbers[2],
        tmax: set.numbers[3],
        sigmamin: set.numbers[4],
        sigmamax: set.numbers[5],
        beta: set.numbers[6],
        boost: set.numbers[7],
        lower: set.numbers[8],
        upper: set.numbers[9],
        cap: set.numbers[10],
    }
}

// Whether the compatibility numbers can't be used.
fn no_blend(g: Geometry) -> bool
    ensures { result ≡ no_blend g }
{
    !float::is_finite(g.lower)
        | (g.lower <= 0.0)
        | !float::is_finite(g.upper)
        | (g.upper <= g.lower)
}

// The part of a step that a statistic allows.
fn blend(g: Geometry, statistic: f32) -> f32
    ensures { result ≡ blend_of g statistic }
{
    if no_blend(g) {
        return g.beta;
    }
    if statistic <= g.lower {
        return g.boost;
    }
    if statistic >= g.upper {
        return g.beta;
    }
    let fraction = (statistic - g.lower) / (g.upper - g.lower);
    g.boost - (g.boost - g.beta) * fraction
}

// The same, beta where the statistic is absent.
pub fn profile_beta_from_statistic(g: Geometry, statistic: Result<f32, Absence>) -> f32
    ensures { result ≡ beta_of g statistic }
{
    match statistic {
        Ok(value) => blend(g, value),
        Err(_) => g.beta,
    }
}

// The part of a step that the samples allow.
pub fn profile_blend_beta(g: Geometry, sigmas: [f32; 4], samples: [f32; 4]) -> f32
    ensures { result ≡ blend_beta_of g sigmas samples }
{
    profile_beta_from_statistic(g, profile_compatibility_statistic(sigmas, samples))
}

// The part of the raw step, clamped to the cap.
pub fn profile_bounded_move(g: Geometry, beta: f32, raw: f32) -> f32
    ensures { result ≡ bounded_of g beta raw }
{
    float::clamp(beta * raw, -g.cap, g.cap)
}

// Where beta lies from the set's beta, 0, to its boost, 1.
fn weight(g: Geometry, beta: f32) -> f32
    ensures { result ≡ weight_of g beta }
{
    float::clamp((beta - g.beta) / (g.boost - g.beta), 0.0, 1.0)
}

// The discriminant's root with the curvature's sign.
fn signed_root(c: f32, discriminant: f32) -> f32
    ensures { result ≡ signed_root c discriminant }
{
    let root = quick::sqrt(discriminant);
    if c < 0.0 { -root } else { root }
}

// The move to the stationary point of the curvature's sign.
fn model(derivative: f32, c: f32, discriminant: f32) -> f32
    ensures { result ≡ model_of derivative c discriminant }
{
    -2.0 * derivative / (c + signed_root(c, discriminant))
}

// From the bounded move to the model's by the weight; the bounded move where that is not finite.
fn proposal(weight: f32, model: f32, bounded: f32) -> f32
    ensures { result ≡ proposal_of weight model bounded }
{
    let proposal = bounded + weight * (model - bounded);
    if float::is_finite(proposal) {
        proposal
    } else {
        bounded
    }
}

// The move that the model proposes; the bounded move where it has no weight or no stationary point.
pub fn profile_model_move(
    g: Geometry,
    beta: f32,
    a: f32,
    derivative: f32,
    c: f32,
    bounded: f32,
) -> f32
    ensures { result ≡ model_move_of g beta a derivative c bounded }
{
    let w = weight(g, beta);
    let discriminant = c * c - 12.0 * a * derivative;
    if (w == 0.0) | !float::is_finite(discriminant) | (discriminant <= 0.0) {
        bounded
    } else {
        proposal(w, model(derivative, c, discriminant), bounded)
    }
}

// The first derivative of the cubic k at t.
fn derivative(k: [f32; 4], t: f32) -> f32
    ensures { result ≡ derivative_of k t }
{
    (3.0 * k[0] * t + 2.0 * k[1]) * t + k[2]
}

// Whether the curvature is strictly beyond epsilon, on the polarity's side.
fn is_right_polarity(g: Geometry, c: f32, is_max: bool) -> bool
    ensures { result ≡ right_polarity g c is_max }
{
    if is_max {
        c < -g.epsilon
    } else {
        c > g.epsilon
    }
}

// The place of a sigma: its log2, counted from the origin.
fn place_of(g: Geometry, sigma: f32) -> f32
    ensures { result ≡ place_of g sigma }
{
    logexp::log2(sigma / g.origin)
}

// The sigma of a place.
fn sigma_at(g: Geometry, t: f32) -> f32
    ensures { result ≡ sigma_at g t }
{
    g.origin * logexp::exp(t * 0.6931472)
}

// Whether a place and its sigma are finite and in their closed ranges.
fn is_accepted(g: Geometry, t: f32, sigma: f32) -> bool
    ensures { result ≡ accepted g t sigma }
{
    float::is_finite(t)
        & float::is_finite(sigma)
        & ((g.tmin <= t) & (t <= g.tmax))
        & ((g.sigmamin <= sigma) & (sigma <= g.sigmamax))
}

// What the cubic's value gains from low to high.
fn gain_over(k: [f32; 4], low: f32, high: f32) -> f32
    ensures { result ≡ gain_of k low high }
{
    let delta = high - low;
    delta * (derivative(k, low) + delta * (curvature(k, low) * 0.5 + k[0] * delta))
}

// Whether the gain is finite, and none goes against the polarity.
fn has_gained(gain: f32, is_max: bool) -> bool
    ensures { result ≡ gained gain is_max }
{
    let finite = float::is_finite(gain);
    if is_max {
        finite & (gain >= 0.0)
    } else {
        finite & (gain <= 0.0)
    }
}

// Whether the model's derivative is not above the bounded move's in size, both finite.
fn is_flatter(model: f32, bounded: f32) -> bool
    ensures { result ≡ flatter model bounded }
{
    float::is_finite(model) & float::is_finite(bounded) & (float::abs(model) <= float::abs(bounded))
}

// Whether the model's place is taken before the bounded move's.
fn is_better(g: Geometry, k: [f32; 4], bounded: f32, model: f32, is_max: bool) -> bool
    ensures { result ≡ better g k bounded model is_max }
{
    is_accepted(g, model, sigma_at(g, model))
        & is_flatter(derivative(k, model), derivative(k, bounded))
        & is_right_polarity(g, curvature(k, model), is_max)
        & has_gained(gain_over(k, bounded, model), is_max)
}

// The sigma of the move that is taken; sigma is the bounded move's.
fn chosen(
    g: Geometry,
    k: [f32; 4],
    t: f32,
    bounded: f32,
    model: f32,
    sigma: f32,
    is_max: bool,
) -> f32
    ensures { result ≡ chosen_of g k t bounded model sigma is_max }
{
    if (model != bounded) & is_better(g, k, t + bounded, t + model, is_max) {
        sigma_at(g, t + model)
    } else {
        sigma
    }
}

// Whether the place, the derivative and the curvature are finite, and the curvature is of the polarity.
fn is_trusted(g: Geometry, t: f32, d: f32, c: f32, is_max: bool) -> bool
    ensures { result ≡ trusted g t d c is_max }
{
    float::is_finite(t)
        & float::is_finite(d)
        & float::is_finite(c)
        & is_right_polarity(g, c, is_max)
}

// Whether the move is finite, and the place and the sigma to which it leads are accepted.
fn is_in_range(g: Geometry, step: f32, t: f32, sigma: f32) -> bool
    ensures { result ≡ in_range g step t sigma }
{
    float::is_finite(step) & is_accepted(g, t, sigma)
}

// The sigma to which a trusted place t is moved.
fn moved(
    g: Geometry,
    k: [f32; 4],
    beta: f32,
    t: f32,
    d: f32,
    c: f32,
    is_max: bool,
) -> Result<f32, Missing>
    ensures { result ≡ moved_of g k beta t d c is_max }
{
    let step = profile_bounded_move(g, beta, -d / c);
    let sigma = sigma_at(g, t + step);
    if is_in_range(g, step, t + step, sigma) {
        let model = profile_model_move(g, beta, k[0], d, c, step);
        Ok(chosen(g, k, t, step, model, sigma, is_max))
    } else {
        Err(Missing::Range)
    }
}

// The corrected sigma of a spot with these samples and the sigma that its fit gave.
pub fn corrected_sigma_from_anchor(
    set: Set,
    samples: [f32; 4],
    anchor: f32,
    is_max: bool,
) -> Result<f32, Missing>
    ensures { result ≡ corrected_of set samples anchor is_max }
{
    let g = geometry_of(set);
    let k = compute_geometry_poly_coeffs(set, samples);
    let t = place_of(g, anchor);
    let d = derivative(k, t);
    let c = curvature(k, t);
    if is_trusted(g, t, d, c, is_max) {
        let sigmas = set.sigmas;
        let beta = profile_blend_beta(g, sigmas, samples);
        moved(g, k, beta, t, d, c, is_max)
    } else {
        Err(Missing::Polarity)
    }
}
