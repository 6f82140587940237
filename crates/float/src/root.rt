// The square root of an f32: the root of a whole number of 47 or 48 binary digits, rounded.
ghost use Rattle.std.specs.Prelude.{◌≡◌, ◌+◌, ◌*◌, ◌^◌, ◌<◌};
ghost use Rattle.float.specs.Root.{isqrt, near_root};
ghost use Rattle.float.specs.Pattern.{units_of};
ghost use Rattle.float.specs.Sqrt.{sqrt_of, root_pattern};

use crate::bits::{field, lead, to_u64};

// The root of n, cut to a whole number, by trial of bits, the highest first. Where q stands for the bits so far and b for the one to be tried, `bit` is
// b * b, `root` 2 * b * q and `rest` n - q * q: whether q + b is still a root of at most n takes a sum and a comparison.
fn root_of(n: u64) -> u64
    requires { n < 2 ^ 48 }
    ensures { result ≡ isqrt n }
{
    let mut rest = n;
    let mut root: u64 = 0;
    let mut bit: u64 = 0x4000_0000_0000;
    // Stays: the bit is tried and goes down by two places a turn; a counter beside it would be one variable more.
    while 0 < bit {
        let tried = root + bit;
        root >>= 1;
        if tried <= rest {
            rest -= tried;
            root += bit;
        }
        bit >>= 2;
    }
    root
}

// The whole number nearest to the root of n.
fn near_root(n: u64) -> u64
    requires { n < 2 ^ 48 }
    ensures { result ≡ near_root n }
{
    let r = root_of(n);
    if n <= r * r + r { r } else { r + 1 }
}

// The pattern of the root of m * 2^k units of 2^-149. m is brought to full width by its
// count of leading zeros, so that the whole number under the root has 47 or 48 digits.
fn root_scaled(m: u32, k: u32) -> u32
    requires m_nonzero { (0 < m) × (m < 2 ^ 24) }
    requires k_bound { k < 254 }
    ensures { result ≡ root_pattern (m * 2 ^ k) }
{
    let zeros = u32::leading_zeros(m) - 8;
    let e = 126 + k - zeros;
    let q = near_root(to_u64(m << zeros) << (23 + (e & 1)));
    (e >> 1) * 0x80_0000 + q as u32
}

// The pattern of the root of the positive finite value with the pattern b.
fn root_bits(b: u32) -> u32
    requires { (0 < b) × (b < 0x7f80_0000) }
    ensures { result ≡ root_pattern (units_of b) }
{
    root_scaled(lead(b), field(b) - 1)
}

// Either zero and plus infinity give themselves, NaN and all below 0 give NaN.
pub fn sqrt(x: f32) -> f32
    ensures { result ≡ sqrt_of x }
{
    if x != x {
        return x;
    }
    if x == 0.0 {
        return x;
    }
    if x < 0.0 {
        return 0.0 / 0.0;
    }
    if x == 1.0 / 0.0 {
        return x;
    }
    f32::from_bits(root_bits(f32::to_bits(x)))
}
