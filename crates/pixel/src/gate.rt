// A pixel's own gates, from its four samples.
ghost use Rattle.std.specs.Prelude.{◌≡◌};
ghost use Rattle.fit.specs.Prims.{ours};
ghost use Rattle.pixel.specs.Gate.{sigma_of, peak_of, strong_of, curved_of, gate_by};

use fit::Envelope;
use fit::scale_fit::bends;
use tables::Thresholds;

// The sigma of a polarity's extreme.
pub fn sigma_of(e: Envelope, is_max: bool) -> f32
    ensures { result ≡ sigma_of e is_max }
{
    if is_max { e.smax } else { e.smin }
}

// The response there.
pub fn peak_of(e: Envelope, is_max: bool) -> f32
    ensures { result ≡ peak_of e is_max }
{
    if is_max { e.emax } else { e.emin }
}

// The peak is strictly beyond the threshold.
fn strong(th: Thresholds, peak: f32, is_max: bool) -> bool
    ensures { result ≡ strong_of th peak is_max }
{
    if is_max {
        peak > th.peak
    } else {
        peak < -th.peak
    }
}

// The curvature is finite, of the right sign and strictly beyond the threshold in size.
fn curved(th: Thresholds, k: [f32; 4], sigma: f32, is_max: bool) -> bool
    ensures { result ≡ curved_of th k sigma is_max }
{
    let c = fit::scale_fit::curvature(k, sigma);
    float::is_finite(c) & bends(c, is_max) & (float::abs(c) > th.sigma)
}

// The gates of the extreme (sigma, peak) of the cubic k of the samples l.
pub fn gate(th: Thresholds, l: [f32; 4], k: [f32; 4], sigma: f32, peak: f32, is_max: bool) -> bool
    ensures { result ≡ gate_by ours th l k sigma peak is_max }
{
    if !fit::stream::is_within(th.low, th.high, sigma) {
        return false;
    }
    if !strong(th, peak, is_max) {
        return false;
    }
    if !curved(th, k, sigma, is_max) {
        return false;
    }
    fit::scale_fit::owns_scale_extremum(l, is_max)
}

// The gates of a polarity's extreme of the envelope e.
pub fn own_gate(th: Thresholds, l: [f32; 4], k: [f32; 4], e: Envelope, is_max: bool) -> bool
    ensures { result ≡ gate_by ours th l k (sigma_of e is_max) (peak_of e is_max) is_max }
{
    gate(th, l, k, sigma_of(e, is_max), peak_of(e, is_max), is_max)
}
