// Which floats are no numbers.
ghost use Rattle.std.specs.Prelude.{◌≡◌, ◌||◌};
ghost use Rattle.std.specs.Float.Ieee.{is_nan};

// Whether one of five floats is a NaN: no other differs from itself.
pub fn nan_among(peak: f32, sigma: f32, ratio: f32, low: f32, high: f32) -> bool
    ensures { result ≡ is_nan peak || is_nan sigma || is_nan ratio || is_nan low || is_nan high }
{
    (peak != peak) | (sigma != sigma) | (ratio != ratio) | (low != low) | (high != high)
}
