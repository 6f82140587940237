// The refinement: edge rejection, and the spot moved to its place between pixels.
ghost use Rattle.std.specs.Prelude.{◌≡◌};
ghost use Rattle.refine.specs.Refine.{placed_of, moved_of, refine_of};

use crate::Spot;
pub use spatial::place::{fit_spatial_quadratic, get_q_scale_index};
use spatial::{edge, place};
use tables::Set;

// The spot displaced, where both displacements pass.
fn placed(spot: Spot, index: u8, dx: f32, dy: f32) -> Option<Spot>
    ensures { result ≡ placed_of spot index dx dy }
{
    let moved = Spot {
        x: spot.x + dx,
        y: spot.y + dy,
        index,
        dx,
        dy,
        ..spot
    };
    if moves::is_nearby(dx) & moves::is_nearby(dy) {
        Some(moved)
    } else {
        None
    }
}

// The spot moved by the fit's five numbers. The denominator passes at exactly 1e-10, and so does w1 in size.
fn moved(spot: Spot, index: u8, w: [f32; 5]) -> Option<Spot>
    ensures { result ≡ moved_of spot index w }
{
    if place::denominator(w) < 1e-10 {
        return None;
    }
    if float::abs(w[0]) < 1e-10 {
        return None;
    }
    if !place::is_steep(w, spot.max) {
        return None;
    }
    let dy = place::delta_y(w);
    let dx = place::delta_x(w, dy);
    placed(spot, index, dx, dy)
}

// The spot refined by the nine cubics by position, or rejected. Its sigma stays fixed.
pub fn refine_keypoint_2d(set: Set, spot: Spot, k: &[[f32; 4]; 9], ratio: f32) -> Option<Spot>
    ensures { result ≡ refine_of set ratio k.now spot }
{
    let values = edge::values_at(k, spot.sigma);
    if !edge::passes_edge(values, ratio, spot.max) {
        return None;
    }
    let sigmas = set.sigmas;
    let index = get_q_scale_index(sigmas, spot.sigma);
    moved(spot, index, fit_spatial_quadratic(set, index, values))
}
