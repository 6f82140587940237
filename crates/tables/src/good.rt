// The parts of the test whether a set is good.
ghost use Rattle.std.specs.Prelude.{◌≡◌};
ghost use Rattle.tables.specs.Set.{all_finite, all_under, all_set, rising};

use crate::Set;

// Whether every float of the list is finite.
pub fn all_finite(list: &[f32]) -> bool
    ensures { result ≡ all_finite list.now }
{
    list.iter().all(|x| float::is_finite(*x))
}

// Whether every byte of the list is under n.
pub fn all_under(list: &[u8], n: u8) -> bool
    ensures { result ≡ all_under n list.now }
{
    list.iter().all(|x| *x < n)
}

// Whether the sigmas are positive and strictly rising.
pub fn is_rising(g: [f32; 4]) -> bool
    ensures { result ≡ rising g }
{
    (0.0 < g[0]) & (g[0] < g[1]) & (g[1] < g[2]) & (g[2] < g[3])
}

// Whether all 129 floats are finite.
pub fn all_set(s: Set) -> bool
    ensures { result ≡ all_set s }
{
    all_finite(&s.sigmas)
        & all_finite(&s.scale)
        & all_finite(&s.geometry)
        & all_finite(&s.spatial)
        & all_finite(&s.numbers)
}
