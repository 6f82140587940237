// Finiteness, absolute value, max, min, clamp: by comparisons alone.
ghost use Rattle.std.specs.Prelude.{◌≡◌};
ghost use Rattle.float.specs.Small.{finite, abs_of, max_of, min_of, clamp_of};

// Whether x is neither a NaN nor an infinity.
pub fn is_finite(x: f32) -> bool
    ensures { result ≡ finite x }
{
    let top: f32 = 1.0 / 0.0;
    if x < top {
        return -top < x;
    }
    false
}

// x without its sign.
pub fn abs(x: f32) -> f32
    ensures { result ≡ abs_of x }
{
    if x < 0.0 {
        return -x;
    }
    if x == 0.0 {
        return 0.0;
    }
    x
}

// The larger. One NaN is ignored; of two equal numbers the left is given.
pub fn max(a: f32, b: f32) -> f32
    ensures { result ≡ max_of a b }
{
    if a != a {
        return b;
    }
    if a < b { b } else { a }
}

// The smaller. One NaN is ignored; of two equal numbers the left is given.
pub fn min(a: f32, b: f32) -> f32
    ensures { result ≡ min_of a b }
{
    if a != a {
        return b;
    }
    if b < a { b } else { a }
}

// For any bounds, low for an x below low, then high for one above high; NaN stays NaN.
pub fn clamp(x: f32, low: f32, high: f32) -> f32
    ensures { result ≡ clamp_of x low high }
{
    if x < low {
        return low;
    }
    if x > high { high } else { x }
}
