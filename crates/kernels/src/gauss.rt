// The half kernels, step by step as the published Rust makes them.
ghost use Rattle.std.specs.Prelude.{◌≡◌, ◌+◌, ◌*◌, ◌≤◌, ◌<◌};
ghost use Rattle.kernels.specs.Kernel.{float, ceil_of, weight_of, sum_of, tap_of, taps_of, gaussian_of, base_of, left_of, kernel_to};

use crate::Kernel;

// A small count as a float.
fn count(n: usize) -> f32
    requires { n ≤ 32 }
    ensures { result ≡ float n }
{
    n as f32
}

// x rounded up, as a count of at most 16; total: NaN gives 0, the infinity 16.
fn ceil(x: f32) -> usize
    ensures { result ≡ ceil_of x }
{
    for n in 0..16 {
        let y = count(n);
        if !(y < x) {
            return n;
        }
    }
    16
}

// The weight at place i of the full kernel.
fn weight(sigma: f32, radius: usize, i: usize) -> f32
    requires { (radius ≤ 16) × (i ≤ 32) }
    ensures { result ≡ weight_of sigma radius i }
{
    let d = (count(i) - count(radius)) / sigma;
    logexp::exp(-0.5 * d * d)
}

// The sum of the full kernel's weights, in the order of their places.
fn sum(sigma: f32, radius: usize) -> f32
    requires { radius ≤ 16 }
    ensures { result ≡ sum_of sigma radius (2 * radius + 1) }
{
    let n = 2 * radius + 1;
    let mut s: f32 = 0.0;
    for i in 0..n {
        s = s + weight(sigma, radius, i);
    }
    s
}

// The tap t off the centre, given the sum.
fn tap(sigma: f32, radius: usize, total: f32, t: usize) -> f32
    requires { (radius ≤ 16) × (t < 17) × (total ≡ sum_of sigma radius (2 * radius + 1)) }
    ensures { result ≡ tap_of sigma radius t }
{
    if t <= radius {
        return weight(sigma, radius, radius + t) / total;
    }
    0.0
}

// The 17 taps.
fn taps(sigma: f32, radius: usize) -> [f32; 17]
    requires { radius ≤ 16 }
    ensures { result ≡ taps_of sigma radius 17 }
{
    let total = sum(sigma, radius);
    let mut a: [f32; 17] = [0.0; 17];
    for t in 0..17 {
        a[t] = tap(sigma, radius, total, t);
    }
    a
}

// The kernel of a sigma.
pub fn gaussian(sigma: f32) -> Kernel
    ensures { result ≡ gaussian_of sigma }
{
    if sigma < 0.00000011920929 {
        let mut one: [f32; 17] = [0.0; 17];
        one[0] = 1.0;
        return Kernel {
            radius: 0,
            taps: one,
        };
    }
    let radius = ceil(3.0 * sigma);
    let a = taps(sigma, radius);
    Kernel {
        radius: radius,
        taps: a,
    }
}

// The blur that the raw map of an octave has.
fn base(octave: usize, third: f32) -> f32
    ensures { result ≡ base_of octave third }
{
    if octave == 0 {
        return 0.5;
    }
    third / 2.0
}

// What is left to blur from base to target.
fn left(base: f32, target: f32) -> f32
    ensures { result ≡ left_of base target }
{
    let square = float::max(target * target - base * base, 0.0);
    float::max(float::sqrt(square), 0.1)
}

// The kernel that takes an octave's raw map to a level of sigma target; third is the octave's third sigma.
pub fn octave_kernel(octave: usize, third: f32, target: f32) -> Kernel
    ensures { result ≡ kernel_to octave third target }
{
    gaussian(left(base(octave, third), target))
}
