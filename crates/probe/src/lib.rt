// The inner functions for the tests alone, to be compared with the published Rust one by one: offered to nobody else.
// Each takes plain numbers and the record of a set, and answers one number: the i-th where the result has several, NaN past the end.
#![tactic(auto)]

ghost use Rattle.std.specs.Prelude.{◌≡◌, [], ◌∷◌};
ghost use Rattle.float.specs.Sqrt.{sqrt_of};
ghost use Rattle.fit.specs.Cubic.{horner_of};
ghost use Rattle.fit.specs.Band.{extreme_of};
ghost use Rattle.fit.specs.Owns.{owns_of};
ghost use Rattle.probe.specs.Probe.{cubic_of, end_of, envelope_part, extrema_part, level_of, spatial_part, fresh_of, refine_part, statistic_part, beta_part, blend_part, bounded_part, model_part};

mod parts;
mod blurs; // blurs.rt: kernels, and levels by kernels given

pub use blurs::{probe_blur, probe_gaussian, probe_kernel};

pub fn probe_cubic(set: &[u8], geometry: bool, l0: f32, l1: f32, l2: f32, l3: f32, i: usize) -> f32
    ensures { result ≡ cubic_of set.now geometry (l0 ∷ l1 ∷ l2 ∷ l3 ∷ []) i }
{
    let k = parts::cubic(parts::held_in(set), geometry, [l0, l1, l2, l3]);
    parts::number_at(&k, i)
}

pub fn probe_quick(x: f32) -> f32
    ensures { result ≡ sqrt_of x }
{
    quick::sqrt(x)
}

pub fn probe_horner(a: f32, b: f32, c: f32, d: f32, s: f32) -> f32
    ensures { result ≡ horner_of (a ∷ b ∷ c ∷ d ∷ []) s }
{
    fit::scale_fit::horner([a, b, c, d], s)
}

pub fn probe_band(set: &[u8], sigma: f32, high: bool) -> f32
    ensures { result ≡ end_of set.now sigma high }
{
    let held = parts::held_in(set);
    let sigmas = held.sigmas;
    let band = fit::scale_fit::neighbor_scale_band(sigmas, sigma);
    fit::pick(high, band.high, band.low)
}

pub fn probe_extreme(a: f32, b: f32, c: f32, d: f32, low: f32, high: f32, is_max: bool) -> f32
    ensures { result ≡ extreme_of (a ∷ b ∷ c ∷ d ∷ []) low high is_max }
{
    fit::scale_fit::band_extreme([a, b, c, d], low, high, is_max)
}

pub fn probe_owns(l0: f32, l1: f32, l2: f32, l3: f32, is_max: bool) -> bool
    ensures { result ≡ owns_of (l0 ∷ l1 ∷ l2 ∷ l3 ∷ []) is_max }
{
    fit::scale_fit::owns_scale_extremum([l0, l1, l2, l3], is_max)
}

pub fn probe_envelope(set: &[u8], l0: f32, l1: f32, l2: f32, l3: f32, i: usize) -> f32
    ensures { result ≡ envelope_part set.now (l0 ∷ l1 ∷ l2 ∷ l3 ∷ []) i }
{
    let held = parts::held_in(set);
    let sigmas = held.sigmas;
    let e = fit::stream::scale_envelope(&held.scale, sigmas, [l0, l1, l2, l3]);
    let list = parts::parts_of(e);
    parts::number_at(&list, i)
}

pub fn probe_extrema(set: &[u8], a: f32, b: f32, c: f32, d: f32, l0: f32, l3: f32, i: usize) -> f32
    ensures { result ≡ extrema_part set.now (a ∷ b ∷ c ∷ d ∷ []) l0 l3 i }
{
    let held = parts::held_in(set);
    let sigmas = held.sigmas;
    let e = fit::reference::polynomial_extrema([a, b, c, d], sigmas, l0, l3);
    let list = parts::parts_of(e);
    parts::number_at(&list, i)
}

pub fn probe_index(set: &[u8], sigma: f32) -> u8
    ensures { result ≡ level_of set.now sigma }
{
    let held = parts::held_in(set);
    let sigmas = held.sigmas;
    refine::refine::get_q_scale_index(sigmas, sigma)
}

pub fn probe_spatial(set: &[u8], index: u8, values: &[f32], i: usize) -> f32
    ensures { result ≡ spatial_part set.now index values.now i }
{
    let w = refine::refine::fit_spatial_quadratic(
        parts::held_in(set),
        index,
        parts::numbers(values, 0),
    );
    parts::number_at(&w, i)
}

pub fn probe_refine(
    set: &[u8],
    k: &[f32],
    x: f32,
    y: f32,
    sigma: f32,
    peak: f32,
    is_max: bool,
    ratio: f32,
    i: usize,
) -> f32
    ensures { result ≡ refine_part set.now k.now (fresh_of x y sigma peak is_max) ratio i }
{
    let cubics = parts::cubics(k);
    let spot = parts::fresh(x, y, sigma, peak, is_max);
    let left = refine::lend::refine_spot(parts::held_in(set), spot, &cubics, ratio);
    let list = parts::leaves(left);
    parts::number_at(&list, i)
}

pub fn probe_statistic(set: &[u8], l0: f32, l1: f32, l2: f32, l3: f32) -> f32
    ensures { result ≡ statistic_part set.now (l0 ∷ l1 ∷ l2 ∷ l3 ∷ []) }
{
    let held = parts::held_in(set);
    let sigmas = held.sigmas;
    let s = profile::profile_compatibility_statistic(sigmas, [l0, l1, l2, l3]);
    parts::number_of(s)
}

pub fn probe_beta(set: &[u8], present: bool, statistic: f32) -> f32
    ensures { result ≡ beta_part set.now present statistic }
{
    let g = size::anchor::geometry_of(parts::held_in(set));
    let s = parts::given(present, statistic);
    size::anchor::profile_beta_from_statistic(g, s)
}

pub fn probe_blend(set: &[u8], l0: f32, l1: f32, l2: f32, l3: f32) -> f32
    ensures { result ≡ blend_part set.now (l0 ∷ l1 ∷ l2 ∷ l3 ∷ []) }
{
    let held = parts::held_in(set);
    let sigmas = held.sigmas;
    let g = size::anchor::geometry_of(held);
    size::anchor::profile_blend_beta(g, sigmas, [l0, l1, l2, l3])
}

pub fn probe_bounded(set: &[u8], beta: f32, raw: f32) -> f32
    ensures { result ≡ bounded_part set.now beta raw }
{
    let g = size::anchor::geometry_of(parts::held_in(set));
    size::anchor::profile_bounded_move(g, beta, raw)
}

pub fn probe_model(
    set: &[u8],
    beta: f32,
    a: f32,
    derivative: f32,
    curvature: f32,
    bounded: f32,
) -> f32
    ensures { result ≡ model_part set.now beta a derivative curvature bounded }
{
    let g = size::anchor::geometry_of(parts::held_in(set));
    size::anchor::profile_model_move(g, beta, a, derivative, curvature, bounded)
}
