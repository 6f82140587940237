// The float helpers for a C or Rust program to link, by the promises of float and whole alone.
#![tactic(auto)]

ghost use Rattle.std.specs.Prelude.{◌≡◌};
ghost use Rattle.float.specs.Small.{finite, abs_of, min_of, max_of, clamp_of};
ghost use Rattle.float.specs.Sqrt.{sqrt_of};
ghost use Rattle.logexp.specs.Log.{log2_of};
ghost use Rattle.logexp.specs.Exp.{exp_of};
ghost use Rattle.whole.specs.Nearest.{nearest_of};

pub fn uramsheg_abs(x: f32) -> f32
    ensures { result ≡ abs_of x }
{
    float::abs(x)
}

pub fn uramsheg_min(a: f32, b: f32) -> f32
    ensures { result ≡ min_of a b }
{
    float::min(a, b)
}

pub fn uramsheg_max(a: f32, b: f32) -> f32
    ensures { result ≡ max_of a b }
{
    float::max(a, b)
}

pub fn uramsheg_clamp(x: f32, low: f32, high: f32) -> f32
    ensures { result ≡ clamp_of x low high }
{
    float::clamp(x, low, high)
}

pub fn uramsheg_is_finite(x: f32) -> bool
    ensures { result ≡ finite x }
{
    float::is_finite(x)
}

pub fn uramsheg_sqrt(x: f32) -> f32
    ensures { result ≡ sqrt_of x }
{
    float::sqrt(x)
}

pub fn uramsheg_log2(x: f32) -> f32
    ensures { result ≡ log2_of x }
{
    logexp::log2(x)
}

pub fn uramsheg_exp(x: f32) -> f32
    ensures { result ≡ exp_of x }
{
    logexp::exp(x)
}

pub fn uramsheg_nearest(x: f32) -> u32
    ensures { result ≡ nearest_of x }
{
    whole::nearest(x)
}
