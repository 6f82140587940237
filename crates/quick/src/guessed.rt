// The square root of an f32, guessed in float steps and settled by one square of whole numbers. Where that settles nothing, `float::sqrt` does.
// No part but `sqrt` itself branches, so that lines of many values may take the same steps.
ghost use Rattle.std.specs.Prelude.{◌≡◌, ◌+◌, ◌*◌, ◌%◌, ◌^◌, ◌<◌, ◌≤◌, true, if◌then◌else◌, from_bits};
ghost use Rattle.std.specs.Float.{binary32};
ghost use Rattle.float.specs.Root.{near_root};
ghost use Rattle.float.specs.Pattern.{units_of};
ghost use Rattle.float.specs.Sqrt.{sqrt_of, root_pattern};

use crate::Trial;
use float::to_u64;

// 1 or 0.
fn one(test: bool) -> u32
    ensures { (result ≡ (if test then 1 else 0)) × (result ≤ 1) }
{
    if test { 1 } else { 0 }
}

// Close to the root of the normal value x with the pattern p: one of Newton's steps for the root's inverse y, then three terms of the inverse root of 1 - d,
// which is x * y * y. Nothing is claimed of it.
fn guess(p: u32) -> f32
    requires { p < 0x7f80_0000 }
{
    let x = f32::from_bits(p);
    let y0 = f32::from_bits(0x5f1f_fff9 - p / 2);
    let y = 0.70395225 * y0 * (2.3892446 - x * y0 * y0);
    let r = x * y;
    let d = 1.0 - r * y;
    r + r * d * (0.5 + 0.375 * d)
}

// n + k less the square of k, cut to the width.
fn gap(n: u64, k: u64) -> u64
    requires { (n < 2 ^ 48) × (k < 2 ^ 25) }
    ensures { (result + k * k) % 2 ^ 64 ≡ n + k }
{
    std::num::wrapping_sub_u64(n + k, k * k)
}

// k, k + 1 or k + 2, whichever is nearest to the root of n, where one of them is.
fn settle(n: u64, k: u32) -> Trial
    requires { (n < 2 ^ 48) × (k < 2 ^ 25) }
    ensures { (result.root ≤ k + 2) × (result.near ≡ true → result.root ≡ near_root n) }
{
    let w = gap(n, to_u64(k));
    let t = (w % 0x1_0000_0000) as u32;
    let k2 = k + k;
    let k4 = k2 + k2;
    let near = (w / 0x1_0000_0000 == 0) & (t != 0) & (t <= k4 + k2 + 6);
    let root = k + one(t > k2) + one(t > k4 + 2);
    Trial { root, near }
}

// x, or 0.
fn some(test: bool, x: u32) -> u32
    ensures { (result ≡ (if test then x else 0)) × (result ≤ x) }
{
    if test { x } else { 0 }
}

// m, or twice m: by a sum, which lines of many values do faster than a shift.
fn doubled(m: u32, odd: bool) -> u32
    requires { m < 2 ^ 24 }
    ensures { (result ≡ (if odd then m + m else m)) × (result < 2 ^ 25) }
{
    m + some(odd, m)
}

// The pattern of the root of the normal value with the pattern p, from a guess with the pattern g, which may be one off either way.
fn attempt(p: u32, g: u32) -> Trial
    requires { (2 ^ 23 ≤ p) × (p < 0x7f80_0000) }
    ensures { (result.root < 0x7f80_0000) × (result.near ≡ true → result.root ≡ root_pattern (units_of p)) }
{
    let e = p / 0x80_0000 + 125;
    let m = p % 0x80_0000 + 0x80_0000;
    let base = e / 2 * 0x80_0000;
    let k = std::num::wrapping_sub_u32(g, base + 1) % 0x200_0000;
    let s = settle(to_u64(doubled(m, e % 2 == 1)) * 0x80_0000, k);
    Trial {
        root: base + s.root,
        near: s.near,
    }
}

// The pattern b where it is a normal value's, and else that of 1.
fn normal(b: u32) -> u32
    ensures { (2 ^ 23 ≤ result) × (result < 0x7f80_0000) }
{
    if (0x80_0000 <= b) & (b < 0x7f80_0000) {
        b
    } else {
        0x3f80_0000
    }
}

// Close to the root of a normal d. Nothing is claimed of it.
pub fn guess_of(d: f32) -> f32 {
    guess(normal(words::bits(d)))
}

// The pattern of the root of d, from a guess g.
pub fn tried(d: f32, g: f32) -> Trial
    ensures { (result.root < 0x7f80_0000) × (result.near ≡ true → from_bits binary32 result.root ≡ sqrt_of d) }
{
    let b = words::bits(d);
    let p = normal(b);
    let t = attempt(p, words::bits(g));
    Trial {
        root: t.root,
        near: (p == b) & t.near,
    }
}

// The square root: `float::sqrt`'s, and at a normal value most often in a fraction of its time.
pub fn sqrt(x: f32) -> f32
    ensures { result ≡ sqrt_of x }
{
    let t = tried(x, guess_of(x));
    if t.near {
        return f32::from_bits(t.root);
    }
    float::sqrt(x)
}
