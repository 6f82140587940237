// The profile statistic of four samples: how far the points that they give lie from a rising line, or why there is none.
// Each function follows the published Rust's operations one by one, each rounded once; the definitions are in specs/.
#![tactic(auto)]

ghost use Rattle.std.specs.Prelude.{◌≡◌};
ghost use Rattle.profile.specs.Four.{energy_of};
ghost use Rattle.profile.specs.Profile.{residual_of, usable_samples, usable_roots, usable_line, usable_energy, ratio_of, fitted_of, scaled_of, statistic_of};

use crate::four::{
    all_above, all_below, all_usable, dot, energy, largest, mean, over, quotients, roots, spread,
    squares,
};
use fit::scale_fit::all_finite;

mod four;

// Why there is no statistic: the first of its tests, in this order, that the samples fail.
#[derive(Clone, Copy)]
pub enum Absence {
    Samples,
    Quotients,
    Line,
    Energy,
}

// Each dy less the slope's part of its dx.
fn residual(dy: [f32; 4], slope: f32, dx: [f32; 4]) -> [f32; 4]
    ensures { result ≡ residual_of dy slope dx }
{
    [
        dy[0] - slope * dx[0],
        dy[1] - slope * dx[1],
        dy[2] - slope * dx[2],
        dy[3] - slope * dx[3],
    ]
}

// Whether the samples are finite, and all above 0 or all below 0.
fn usable_samples(l: [f32; 4]) -> bool
    ensures { result ≡ usable_samples l }
{
    all_finite(l) & (all_above(l) | all_below(l))
}

// Whether the quotients, their roots, the largest root and the scaled roots are finite and above 0.
fn usable_roots(q: [f32; 4], root: [f32; 4], top: f32, z: [f32; 4]) -> bool
    ensures { result ≡ usable_roots q root top z }
{
    all_usable(q) & all_usable(root) & float::is_finite(top) & !(top <= 0.0) & all_usable(z)
}

// Whether the line is finite, rises, and has an intercept above 0.
fn usable_line(mean: f32, numerator: f32, slope: f32, intercept: f32) -> bool
    ensures { result ≡ usable_line mean numerator slope intercept }
{
    float::is_finite(mean)
        & float::is_finite(numerator)
        & float::is_finite(slope)
        & float::is_finite(intercept)
        & !(slope <= 0.0)
        & !(intercept <= 0.0)
}

// Whether the energies are finite, the whole is above 0, and their quotient is finite and not below 0.
fn usable_energy(residual: f32, whole: f32) -> bool
    ensures { result ≡ usable_energy residual whole }
{
    let statistic = residual / whole;
    float::is_finite(residual)
        & float::is_finite(whole)
        & !(whole <= 0.0)
        & float::is_finite(statistic)
        & (statistic >= 0.0)
}

// The residual's energy over the whole.
fn ratio(residual: f32, whole: f32) -> Result<f32, Absence>
    ensures { result ≡ ratio_of residual whole }
{
    if usable_energy(residual, whole) {
        Ok(residual / whole)
    } else {
        Err(Absence::Energy)
    }
}

// The statistic of the points with these distances from their means and this slope.
fn off_line(dx: [f32; 4], z: [f32; 4], dy: [f32; 4], slope: f32) -> Result<f32, Absence>
    ensures { result ≡ ratio_of (energy_of (residual_of dy slope dx)) (energy_of z) }
{
    ratio(energy(residual(dy, slope, dx)), energy(z))
}

// The line through the four points (x, z).
fn fitted(x: [f32; 4], z: [f32; 4]) -> Result<f32, Absence>
    ensures { result ≡ fitted_of x z }
{
    let dx = spread(x);
    let dy = spread(z);
    let numerator = dot(dx, dy);
    let slope = numerator / energy(dx);
    let mean_z = mean(z);
    let mean_x = mean(x);
    if usable_line(mean_z, numerator, slope, mean_z - slope * mean_x) {
        off_line(dx, z, dy, slope)
    } else {
        Err(Absence::Line)
    }
}

// The roots of the quotients q, scaled by the largest of them.
fn scaled(x: [f32; 4], q: [f32; 4]) -> Result<f32, Absence>
    ensures { result ≡ scaled_of x q }
{
    let root = roots(q);
    let maximum_root = largest(root);
    let z = over(root, maximum_root);
    if usable_roots(q, root, maximum_root, z) {
        fitted(x, z)
    } else {
        Err(Absence::Quotients)
    }
}

// The profile statistic of the samples under the sigmas.
pub fn profile_compatibility_statistic(sigmas: [f32; 4], samples: [f32; 4]) -> Result<f32, Absence>
    ensures { result ≡ statistic_of sigmas samples }
{
    if usable_samples(samples) {
        let x = squares(sigmas);
        scaled(x, quotients(x, samples))
    } else {
        Err(Absence::Samples)
    }
}
