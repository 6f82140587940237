// How far a spot is moved from its pixel: what passes, and how it is kept.
#![tactic(auto)]

ghost use Rattle.std.specs.Prelude.{◌≡◌};
ghost use Rattle.moves.specs.Moves.{nearby, kept_of};

// A displacement passes, at exactly 0.6 too.
pub fn is_nearby(d: f32) -> bool
    ensures { result ≡ nearby d }
{
    float::is_finite(d) & !(float::abs(d) > 0.6)
}

// A displacement as it is kept: a zero as +0.
pub fn kept(d: f32) -> f32
    ensures { result ≡ kept_of d }
{
    if d == 0.0 { 0.0 } else { d }
}
