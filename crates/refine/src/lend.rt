// The refinement that lends the spot and changes it in place, and the same by value.
ghost use Rattle.std.specs.Prelude.{◌≡◌};
ghost use Rattle.refine.specs.Lend.{lent_of};

use crate::Spot;
use crate::refine::refine_keypoint_2d;
use tables::Set;

// The spot that the refinement leaves, and whether it accepted.
// Stays: `lent_of`, which the promises here and the probe's exported `probe_refine` cite, says which spot is left where none is accepted.
#[derive(Clone, Copy)]
pub struct Settled {
    pub spot: Spot,
    pub ok: bool,
}

// Refused, it is the spot that was passed.
pub fn settle(set: Set, spot: Spot, k: &[[f32; 4]; 9], ratio: f32) -> Settled
    ensures { result ≡ lent_of set ratio k.now spot }
{
    match refine_keypoint_2d(set, spot, k, ratio) {
        Some(found) => Settled {
            spot: found,
            ok: true,
        },
        None => Settled { spot, ok: false },
    }
}

// Changes the lent spot only where it accepts.
pub fn refine_in_place(set: Set, spot: &mut Spot, k: &[[f32; 4]; 9], ratio: f32) -> bool
    ensures { (result ≡ (lent_of set ratio k.now spot.old).ok) × (spot.new ≡ (lent_of set ratio k.now spot.old).spot) }
{
    let old = *spot;
    let left = settle(set, old, k, ratio);
    *spot = left.spot;
    left.ok
}

// By value above the lending form: its callers lend nothing.
pub fn refine_spot(set: Set, spot: Spot, k: &[[f32; 4]; 9], ratio: f32) -> Settled
    ensures { result ≡ lent_of set ratio k.now spot }
{
    let mut lent = spot;
    let ok = refine_in_place(set, &mut lent, k, ratio);
    Settled { spot: lent, ok }
}
