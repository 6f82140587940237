// Which pixels of a line may pass their own gates: bit 0 as a minimum, bit 1 as a maximum, bit 2 where it is not known.
ghost use Rattle.std.specs.Prelude.{◌+◌, ◌≤◌, ◌≡◌, true, false, cond, [], ◌∷◌, length};
ghost use Rattle.fit.specs.Owned.{owned_by};
ghost use Rattle.columns.specs.Gate.{pass_of, word_of, Words};

use crate::Window;

fn bit(test: bool, value: u32) -> u32
    requires { value ≤ 4 }
    ensures { (result ≡ cond test value 0) × (result ≤ value) }
{
    if test { value } else { 0 }
}

// An inner sample is below both outer ones.
fn is_owned_low(l0: f32, l1: f32, l2: f32, l3: f32) -> bool
    ensures { result ≡ owned_by (l0 ∷ l1 ∷ l2 ∷ l3 ∷ []) false }
{
    ((l1 < l0) & (l1 < l3)) | ((l2 < l0) & (l2 < l3))
}

// An inner sample is above both outer ones.
// Stays: beside the one for below, since one function with a flag would write out both lines all the same.
fn is_owned_high(l0: f32, l1: f32, l2: f32, l3: f32) -> bool
    ensures { result ≡ owned_by (l0 ∷ l1 ∷ l2 ∷ l3 ∷ []) true }
{
    ((l1 > l0) & (l1 > l3)) | ((l2 > l0) & (l2 > l3))
}

// The point p lies in the window, and its value v is above the threshold.
fn is_passing(g: Window, p: f32, v: f32) -> bool
    ensures { result ≡ pass_of g p v }
{
    (g.low <= p) & (p <= g.high) & (g.peak < v)
}

// One pixel's word, from its samples, its two points with their values, and its root.
fn word(
    g: Window,
    l0: f32,
    l1: f32,
    l2: f32,
    l3: f32,
    p: f32,
    v: f32,
    q: f32,
    u: f32,
    root: f32,
) -> u32
    ensures { (result ≡ word_of g (l0 ∷ l1 ∷ l2 ∷ l3 ∷ []) p v q u root) × (result ≤ 7) }
{
    let low = is_owned_low(l0, l1, l2, l3);
    let high = is_owned_high(l0, l1, l2, l3);
    bit(low & is_passing(g, p, v), 1)
        + bit(high & is_passing(g, q, u), 2)
        + bit((low | high) & ((root < 0.0) | g.wild), 4)
}

// The words of a line: samples and roots from 0 on, points of minima at z and of maxima at 780 + z, words from z on. Answers a number that no word exceeds.
pub fn gate_line(
    g: Window,
    n: usize,
    z: usize,
    s0: &[f32; 256],
    s1: &[f32; 256],
    s2: &[f32; 256],
    s3: &[f32; 256],
    r: &[f32; 256],
    p: &[f32; 1560],
    v: &[f32; 1560],
    w: &mut [u32; 780],
) -> u32
    requires n_bound { (n ≤ 256) × (z + n ≤ 780) }
    ensures { Words g s0.now s1.now s2.now s3.now r.now p.now v.now z n w.old w.new result }
{
    let mut any: u32 = 0;
    for i in 0..n {
        let x = word(
            g,
            s0[i],
            s1[i],
            s2[i],
            s3[i],
            p[z + i],
            v[z + i],
            p[780 + z + i],
            v[780 + z + i],
            r[i],
        );
        w[z + i] = x;
        any = any | x;
    }
    any
}
