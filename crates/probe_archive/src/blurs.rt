// The kernels, and two levels by kernels given.
ghost use Rattle.std.specs.Prelude.{◌≡◌};
ghost use Rattle.kernels.specs.Kernel.{gaussian_of, kernel_to};
ghost use Rattle.probe.specs.Blurs.{kernel_part, blur_left, blur_face};

#[unsafe(no_mangle)]
pub extern "C" fn probe_gaussian(sigma: f32, i: usize) -> f32
    ensures { result ≡ kernel_part (gaussian_of sigma) i }
{
    probe::probe_gaussian(sigma, i)
}

#[unsafe(no_mangle)]
pub extern "C" fn probe_kernel(octave: usize, third: f32, target: f32, i: usize) -> f32
    ensures { result ≡ kernel_part (kernel_to octave third target) i }
{
    probe::probe_kernel(octave, third, target, i)
}

// Two levels by two kernels given: true, or false and nothing written.
#[unsafe(no_mangle)]
pub extern "C" fn probe_blur(
    radius: usize,
    taps: &[f32],
    radius2: usize,
    taps2: &[f32],
    rows: usize,
    cols: usize,
    raw: &[f32],
    x: &mut [f32],
    y: &mut [f32],
) -> bool
    ensures { blur_left result x.new y.new
        ≡ blur_face radius taps.now radius2 taps2.now rows cols raw.now x.old y.old }
{
    probe::probe_blur(radius, taps, radius2, taps2, rows, cols, raw, x, y)
}
