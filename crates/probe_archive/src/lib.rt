// The inner functions as the comparison's programs link them: each export is one call of probe, under the same promise. Offered to nobody else.
#![tactic(auto)]

mod blurs; // blurs.rt: kernels, and levels by kernels given

ghost use Rattle.std.specs.Prelude.{◌≡◌, [], ◌∷◌};
ghost use Rattle.float.specs.Sqrt.{sqrt_of};
ghost use Rattle.fit.specs.Cubic.{horner_of};
ghost use Rattle.fit.specs.Band.{extreme_of};
ghost use Rattle.fit.specs.Owns.{owns_of};
ghost use Rattle.probe.specs.Probe.{cubic_of, end_of, envelope_part, extrema_part, level_of, spatial_part, fresh_of, refine_part, statistic_part, beta_part, blend_part, bounded_part, model_part};

#[unsafe(no_mangle)]
pub extern "C" fn probe_cubic(
    set: &[u8],
    geometry: bool,
    l0: f32,
    l1: f32,
    l2: f32,
    l3: f32,
    i: usize,
) -> f32
    ensures { result ≡ cubic_of set.now geometry (l0 ∷ l1 ∷ l2 ∷ l3 ∷ []) i }
{
    probe::probe_cubic(set, geometry, l0, l1, l2, l3, i)
}

#[unsafe(no_mangle)]
pub extern "C" fn probe_quick(x: f32) -> f32
    ensures { result ≡ sqrt_of x }
{
    probe::probe_quick(x)
}

#[unsafe(no_mangle)]
pub extern "C" fn probe_horner(a: f32, b: f32, c: f32, d: f32, s: f32) -> f32
    ensures { result ≡ horner_of (a ∷ b ∷ c ∷ d ∷ []) s }
{
    probe::probe_horner(a, b, c, d, s)
}

#[unsafe(no_mangle)]
pub extern "C" fn probe_band(set: &[u8], sigma: f32, high: bool) -> f32
    ensures { result ≡ end_of set.now sigma high }
{
    probe::probe_band(set, sigma, high)
}

#[unsafe(no_mangle)]
pub extern "C" fn probe_extreme(
    a: f32,
    b: f32,
    c: f32,
    d: f32,
    low: f32,
    high: f32,
    is_max: bool,
) -> f32
    ensures { result ≡ extreme_of (a ∷ b ∷ c ∷ d ∷ []) low high is_max }
{
    probe::probe_extreme(a, b, c, d, low, high, is_max)
}

#[unsafe(no_mangle)]
pub extern "C" fn probe_owns(l0: f32, l1: f32, l2: f32, l3: f32, is_max: bool) -> bool
    ensures { result ≡ owns_of (l0 ∷ l1 ∷ l2 ∷ l3 ∷ []) is_max }
{
    probe::probe_owns(l0, l1, l2, l3, is_max)
}

#[unsafe(no_mangle)]
pub extern "C" fn probe_envelope(set: &[u8], l0: f32, l1: f32, l2: f32, l3: f32, i: usize) -> f32
    ensures { result ≡ envelope_part set.now (l0 ∷ l1 ∷ l2 ∷ l3 ∷ []) i }
{
    probe::probe_envelope(set, l0, l1, l2, l3, i)
}

#[unsafe(no_mangle)]
pub extern "C" fn probe_extrema(
    set: &[u8],
    a: f32,
    b: f32,
    c: f32,
    d: f32,
    l0: f32,
    l3: f32,
    i: usize,
) -> f32
    ensures { result ≡ extrema_part set.now (a ∷ b ∷ c ∷ d ∷ []) l0 l3 i }
{
    probe::probe_extrema(set, a, b, c, d, l0, l3, i)
}

#[unsafe(no_mangle)]
pub extern "C" fn probe_index(set: &[u8], sigma: f32) -> u8
    ensures { result ≡ level_of set.now sigma }
{
    probe::probe_index(set, sigma)
}

#[unsafe(no_mangle)]
pub extern "C" fn probe_spatial(set: &[u8], index: u8, values: &[f32], i: usize) -> f32
    ensures { result ≡ spatial_part set.now index values.now i }
{
    probe::probe_spatial(set, index, values, i)
}

#[unsafe(no_mangle)]
pub extern "C" fn probe_refine(
    set: &[u8],
    k: &[f32],
    x: f32,
    y: f32,
    sigma: f32,
    peak: f32,
    is_max: bool,
    ratio: f32,
    i: usize,
) -> f32
    ensures { result ≡ refine_part set.now k.now (fresh_of x y sigma peak is_max) ratio i }
{
    probe::probe_refine(set, k, x, y, sigma, peak, is_max, ratio, i)
}

#[unsafe(no_mangle)]
pub extern "C" fn probe_statistic(set: &[u8], l0: f32, l1: f32, l2: f32, l3: f32) -> f32
    ensures { result ≡ statistic_part set.now (l0 ∷ l1 ∷ l2 ∷ l3 ∷ []) }
{
    probe::probe_statistic(set, l0, l1, l2, l3)
}

#[unsafe(no_mangle)]
pub extern "C" fn probe_beta(set: &[u8], present: bool, statistic: f32) -> f32
    ensures { result ≡ beta_part set.now present statistic }
{
    probe::probe_beta(set, present, statistic)
}

#[unsafe(no_mangle)]
pub extern "C" fn probe_blend(set: &[u8], l0: f32, l1: f32, l2: f32, l3: f32) -> f32
    ensures { result ≡ blend_part set.now (l0 ∷ l1 ∷ l2 ∷ l3 ∷ []) }
{
    probe::probe_blend(set, l0, l1, l2, l3)
}

#[unsafe(no_mangle)]
pub extern "C" fn probe_bounded(set: &[u8], beta: f32, raw: f32) -> f32
    ensures { result ≡ bounded_part set.now beta raw }
{
    probe::probe_bounded(set, beta, raw)
}

#[unsafe(no_mangle)]
pub extern "C" fn probe_model(
    set: &[u8],
    beta: f32,
    a: f32,
    derivative: f32,
    curvature: f32,
    bounded: f32,
) -> f32
    ensures { result ≡ model_part set.now beta a derivative curvature bounded }
{
    probe::probe_model(set, beta, a, derivative, curvature, bounded)
}
