// log2 of an f32: the exponent from the bits, 21 binary digits of the rest by repeated squaring, rounded down.
ghost use Rattle.std.specs.Prelude.{◌≡◌, ◌^◌, ◌≤◌, ◌<◌};
ghost use Rattle.logexp.specs.Log.{wide_of, expo_of, digits_of, scaled_of, joined, log2_pos, log2_of};

use float::{field, lead};

// The first 21 binary digits of log2(w / 2^31).
fn digits(w: u64) -> u64
    requires { (2 ^ 31 ≤ w) × (w < 2 ^ 32) }
    ensures { (result ≡ digits_of 21 w) × (result < 2 ^ 21) }
{
    let mut y = w;
    let mut f: u64 = 0;
    for _ in 0..21u32 {
        let s = y * y;
        let t = s >> 63;
        y = s >> (31 + t);
        f = 2 * f + t;
    }
    f
}

// n / 2^21, exactly, or cut to 24 digits by dropping five.
fn scaled(n: u32) -> f32
    requires { n < 2 ^ 29 }
    ensures { result ≡ scaled_of n }
{
    if n < 0x100_0000 {
        (n as f32) * 0.000000476837158203125
    } else {
        ((n >> 5) as f32) * 0.0000152587890625
    }
}

// The significand at full width: 2^31 and above.
fn wide(b: u32) -> u64
    requires { (0 < b) × (b < 0x7f80_0000) }
    ensures { (result ≡ wide_of b) × (2 ^ 31 ≤ result) × (result < 2 ^ 32) }
{
    let g = lead(b);
    (g << u32::leading_zeros(g)) as u64
}

// 149 more than the exponent.
fn expo(b: u32) -> u32
    requires { (0 < b) × (b < 0x7f80_0000) }
    ensures { (result ≡ expo_of b) × (result ≤ 276) }
{
    let g = lead(b);
    let x = field(b);
    x + 30 - u32::leading_zeros(g)
}

// The exponent e - 149 with the digits f below the point.
fn join(e: u32, f: u32) -> f32
    requires { (e ≤ 276) × (f < 2 ^ 21) }
    ensures { result ≡ joined e f }
{
    if 149 <= e {
        scaled((e - 149) * 0x20_0000 + f)
    } else {
        -scaled((149 - e) * 0x20_0000 - f)
    }
}

// log2 of the positive finite float with the pattern b.
fn log2_bits(b: u32) -> f32
    requires { (0 < b) × (b < 0x7f80_0000) }
    ensures { result ≡ log2_pos b }
{
    let f = digits(wide(b)) as u32;
    join(expo(b), f)
}

// NaN or below 0 gives NaN, either zero minus infinity, infinity itself.
pub fn log2(x: f32) -> f32
    ensures { result ≡ log2_of x }
{
    if x != x {
        return x;
    }
    if x < 0.0 {
        return 0.0 / 0.0;
    }
    if x == 0.0 {
        return -1.0 / 0.0;
    }
    if x == 1.0 / 0.0 {
        return x;
    }
    log2_bits(f32::to_bits(x))
}
