// The stationary points of a cubic, which of them it has, and whether one lies between the sigmas.
ghost use Rattle.std.specs.Prelude.{◌≡◌, cond};
ghost use Rattle.std.specs.Float.Ieee.{lt};
ghost use Rattle.float.specs.Small.{abs_of};
ghost use Rattle.float.specs.Num.{f1e_6};
ghost use Rattle.fit.specs.Cubic.{◌at◌};
ghost use Rattle.fit.specs.Envelope.{within, first_of, second_of};

use crate::stream::is_within;

// The leading coefficient is above 1e-6 in size.
pub fn is_cubic(k: [f32; 4]) -> bool
    ensures { result ≡ lt f1e_6 (abs_of (k at 0)) }
{
    float::abs(k[0]) > 1e-6
}

// The next one is.
pub fn is_quadratic(k: [f32; 4]) -> bool
    ensures { result ≡ lt f1e_6 (abs_of (k at 1)) }
{
    float::abs(k[1]) > 1e-6
}

// s lies between the ends of the sigmas.
pub fn is_inside(sigmas: [f32; 4], s: f32) -> bool
    ensures { result ≡ within (sigmas at 0) (sigmas at 3) s }
{
    is_within(sigmas[0], sigmas[3], s)
}

// x where the test holds, else y.
pub fn pick(test: bool, x: f32, y: f32) -> f32
    ensures { result ≡ cond test x y }
{
    if test { x } else { y }
}

// The quadratic's stationary point, or the cubic's first: one division serves both.
pub fn first_of(k: [f32; 4], quadratic: bool, root: f32) -> f32
    ensures { result ≡ first_of k quadratic root }
{
    let bp = 2.0 * k[1];
    pick(quadratic, -k[2], -bp + root) / pick(quadratic, bp, 6.0 * k[0])
}

// The cubic's second stationary point.
pub fn second_of(k: [f32; 4], root: f32) -> f32
    ensures { result ≡ second_of k root }
{
    (-(2.0 * k[1]) - root) / (6.0 * k[0])
}
