// The correction of a spot's sigma: from its four samples, the sigma that its fit gave and its polarity, a corrected sigma or why there is none.
// Each function follows the published Rust's operations one by one, each rounded once; the definitions are in specs/.
#![tactic(auto)]

ghost use Rattle.std.specs.Prelude.{◌≡◌};
ghost use Rattle.size.specs.Correct.{correct_of};

use tables::{Missing, Refusal, Set};

pub mod anchor;

// The set's geometry numbers by name: log sigma origin, curvature epsilon, fit T min and max, accepted sigma min and max, blend beta and boost,
// compatibility lower and upper, move cap.
#[derive(Clone, Copy)]
pub struct Geometry {
    pub origin: f32,
    pub epsilon: f32,
    pub tmin: f32,
    pub tmax: f32,
    pub sigmamin: f32,
    pub sigmamax: f32,
    pub beta: f32,
    pub boost: f32,
    pub lower: f32,
    pub upper: f32,
    pub cap: f32,
}

// The corrected sigma of a spot with these samples and this sigma; refused where the set is not good, or where the spot has no size.
pub fn correct(set: Set, samples: [f32; 4], sigma: f32, is_max: bool) -> Result<f32, Refusal>
    ensures { result ≡ correct_of set samples sigma is_max }
{
    if !tables::is_good(set) {
        return Err(Refusal::BadSet);
    }
    anchor::corrected_sigma_from_anchor(set, samples, sigma, is_max).map_err(Refusal::NoSize)
}
