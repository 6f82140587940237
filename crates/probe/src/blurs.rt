// The kernels, and two levels by kernels given.
ghost use Rattle.std.specs.Prelude.{◌≡◌, ◌≤◌};
ghost use Rattle.kernels.specs.Kernel.{gaussian_of, kernel_to};
ghost use Rattle.probe.specs.Blurs.{kernel_part, misfits, blur_left, blur_face};

use crate::parts;
use kernels::Kernel;

// The i-th of a kernel's numbers: the radius, then the taps.
fn part(k: Kernel, i: usize) -> f32
    requires { k.radius ≤ 16 }
    ensures { result ≡ kernel_part k i }
{
    if i == 0 {
        return k.radius as f32;
    }
    parts::number_at(&k.taps, i - 1)
}

pub fn probe_gaussian(sigma: f32, i: usize) -> f32
    ensures { result ≡ kernel_part (gaussian_of sigma) i }
{
    part(kernels::gauss::gaussian(sigma), i)
}

pub fn probe_kernel(octave: usize, third: f32, target: f32, i: usize) -> f32
    ensures { result ≡ kernel_part (kernel_to octave third target) i }
{
    part(kernels::gauss::octave_kernel(octave, third, target), i)
}

// Whether a blur can't be made: a side too long, a length or a radius off.
fn misfit(
    rows: usize,
    cols: usize,
    n: usize,
    x: usize,
    y: usize,
    j: usize,
    k: usize,
    t: usize,
    u: usize,
) -> bool
    ensures { result ≡ misfits rows cols n x y j k t u }
{
    if (4096 < rows) | (4096 < cols) {
        return true;
    }
    let area = rows * cols;
    (n != area) | ((x < area) | ((y < area) | ((16 < j) | ((16 < k) | ((t != 17) | (u != 17))))))
}

// Two levels by two kernels given: true, or false and nothing written.
pub fn probe_blur(
    radius: usize,
    taps: &[f32],
    radius2: usize,
    taps2: &[f32],
    rows: usize,
    cols: usize,
    raw: &[f32],
    x: &mut [f32],
    y: &mut [f32],
) -> bool
    ensures { blur_left result x.new y.new
        ≡ blur_face radius taps.now radius2 taps2.now rows cols raw.now x.old y.old }
{
    if misfit(
        rows,
        cols,
        raw.len(),
        x.len(),
        y.len(),
        radius,
        radius2,
        taps.len(),
        taps2.len(),
    ) {
        return false;
    }
    let j = Kernel {
        radius: radius,
        taps: parts::numbers(taps, 0),
    };
    let k = Kernel {
        radius: radius2,
        taps: parts::numbers(taps2, 0),
    };
    blur::two_levels(raw, rows, cols, j, k, x, y);
    true
}
