// The float helpers as a C or Rust program links them: each export is one call of float_c, under the same promise.
#![tactic(auto)]

ghost use Rattle.std.specs.Prelude.{◌≡◌};
ghost use Rattle.float.specs.Small.{finite, abs_of, min_of, max_of, clamp_of};
ghost use Rattle.float.specs.Sqrt.{sqrt_of};
ghost use Rattle.logexp.specs.Log.{log2_of};
ghost use Rattle.logexp.specs.Exp.{exp_of};
ghost use Rattle.whole.specs.Nearest.{nearest_of};

#[unsafe(no_mangle)]
pub extern "C" fn uramsheg_abs(x: f32) -> f32
    ensures { result ≡ abs_of x }
{
    float_c::uramsheg_abs(x)
}

#[unsafe(no_mangle)]
pub extern "C" fn uramsheg_min(a: f32, b: f32) -> f32
    ensures { result ≡ min_of a b }
{
    float_c::uramsheg_min(a, b)
}

#[unsafe(no_mangle)]
pub extern "C" fn uramsheg_max(a: f32, b: f32) -> f32
    ensures { result ≡ max_of a b }
{
    float_c::uramsheg_max(a, b)
}

#[unsafe(no_mangle)]
pub extern "C" fn uramsheg_clamp(x: f32, low: f32, high: f32) -> f32
    ensures { result ≡ clamp_of x low high }
{
    float_c::uramsheg_clamp(x, low, high)
}

#[unsafe(no_mangle)]
pub extern "C" fn uramsheg_is_finite(x: f32) -> bool
    ensures { result ≡ finite x }
{
    float_c::uramsheg_is_finite(x)
}

#[unsafe(no_mangle)]
pub extern "C" fn uramsheg_sqrt(x: f32) -> f32
    ensures { result ≡ sqrt_of x }
{
    float_c::uramsheg_sqrt(x)
}

#[unsafe(no_mangle)]
pub extern "C" fn uramsheg_log2(x: f32) -> f32
    ensures { result ≡ log2_of x }
{
    float_c::uramsheg_log2(x)
}

#[unsafe(no_mangle)]
pub extern "C" fn uramsheg_exp(x: f32) -> f32
    ensures { result ≡ exp_of x }
{
    float_c::uramsheg_exp(x)
}

#[unsafe(no_mangle)]
pub extern "C" fn uramsheg_nearest(x: f32) -> u32
    ensures { result ≡ nearest_of x }
{
    float_c::uramsheg_nearest(x)
}
