// exp of an f32: x in units of 2^-30, a whole number of ln 2 taken off, a series of nine terms, each step rounded down.
ghost use Rattle.std.specs.Prelude.{◌≡◌, ◌+◌, ◌*◌, ◌^◌, ◌≤◌, ◌<◌};
ghost use Rattle.logexp.specs.Exp.{fixed_of, step_of, series_of, exp_up, exp_down, exp_of};

use float::{lead, to_u64};

// ln 2 in units of 2^-30, rounded down.
const LN_2: u64 = 744261117;

// 1 / ln 2 in units of 2^-26, rounded down.
const INVERSE_DOWN: u64 = 96817625;

// The same, rounded up.
const INVERSE_UP: u64 = 96817626;

// One less than the exponent's bias: the leading digit of the significand that is added to the exponent's field carries the missing one.
const BIAS_BEFORE_CARRY: u64 = 126;

// The magnitude of the pattern m in units of 2^-30, rounded down.
fn fixed(m: u32) -> u64
    requires { m < 0x42d0_0000 }
    ensures { result ≡ fixed_of m }
{
    let k = m >> 23;
    let g = to_u64(lead(m));
    if k < 96 {
        0
    } else if k < 120 {
        g >> (120 - k)
    } else {
        g << (k - 120)
    }
}

// One step of the series: c + u * p, in units of 2^-30.
fn step(c: u64, u: u64, p: u64) -> u64
    requires { (c ≤ 2 ^ 30) × (u < 2 ^ 30) × (p < 2 ^ 32) }
    ensures { (result ≡ step_of c u p) × (result ≤ c + p) }
{
    c + ((u * p) >> 30)
}

// e^u, both in units of 2^-30.
fn series(u: u64) -> u64
    requires { u < 2 ^ 30 }
    ensures { (result ≡ series_of u) × (result < 2 ^ 32) }
{
    let p7 = step(213044, u, 26630);
    let p6 = step(1491308, u, p7);
    let p5 = step(8947848, u, p6);
    let p4 = step(44739242, u, p5);
    let p3 = step(178956970, u, p4);
    let p2 = step(536870912, u, p3);
    let p1 = step(1073741824, u, p2);
    step(1073741824, u, p1)
}

// e^(a / 2^30).
fn exp_up(a: u64) -> f32
    requires { a < 104 * 2 ^ 30 }
    ensures { result ≡ exp_up a }
{
    let n = (a * INVERSE_DOWN) >> 56;
    let p = series(a - n * LN_2);
    let t = (n + BIAS_BEFORE_CARRY) * 0x80_0000 + (p >> 7);
    if t < 0x7f80_0000 {
        f32::from_bits(t as u32)
    } else {
        1.0 / 0.0
    }
}

// e^(-a / 2^30).
fn exp_down(a: u64) -> f32
    requires { a < 104 * 2 ^ 30 }
    ensures { result ≡ exp_down a }
{
    if a == 0 {
        return 1.0;
    }
    let n = ((a * INVERSE_UP) >> 56) + 1;
    let p = series(n * LN_2 - a);
    if n < 127 {
        f32::from_bits(((BIAS_BEFORE_CARRY - n) * 0x80_0000 + (p >> 7)) as u32)
    } else {
        f32::from_bits((p >> (n - 119)) as u32)
    }
}

// NaN gives NaN, either zero 1, 89 and above infinity, -104 and below +0.
pub fn exp(x: f32) -> f32
    ensures { result ≡ exp_of x }
{
    if x != x {
        return x;
    }
    if x >= 89.0 {
        return 1.0 / 0.0;
    }
    if x <= -104.0 {
        return 0.0;
    }
    let b = f32::to_bits(x);
    if b < 0x8000_0000 {
        exp_up(fixed(b))
    } else {
        exp_down(fixed(b - 0x8000_0000))
    }
}
