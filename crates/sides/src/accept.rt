// Candidates that the refinement accepts: the edge is asked first, then all tests of the displacement at once.
ghost use Rattle.std.specs.Prelude.{◌≡◌, false, ◌%◌, ◌≤◌, length};
ghost use Rattle.rivals.specs.List.{Coded, Raised};
ghost use Rattle.refine.specs.Refine.{refine_of};
ghost use Rattle.rivals.specs.Ends.{spot_of, accepted_of};
ghost use Rattle.sides.specs.Beside.{places_of, taken_of};

use rivals::ends::nine_cubics;
use rivals::list::raise_codes;
use spatial::{edge, place};
use tables::Set;

// The displacement by the fit's five numbers passes.
fn is_placed(w: [f32; 5], is_max: bool) -> bool
    ensures { result ≡ places_of w is_max }
{
    let dy = place::delta_y(w);
    let dx = place::delta_x(w, dy);
    !(place::denominator(w) < 1e-10)
        & (!(float::abs(w[0]) < 1e-10)
            & (place::is_steep(w, is_max) & (moves::is_nearby(dx) & moves::is_nearby(dy))))
}

// The refinement accepts a spot with this sigma and polarity.
fn accepts(set: Set, ratio: f32, k: &[[f32; 4]; 9], sigma: f32, is_max: bool) -> bool
    ensures { result ≡ accepted_of (refine_of set ratio k.now (spot_of sigma is_max)) }
{
    let values = edge::values_at(k, sigma);
    if !edge::passes_edge(values, ratio, is_max) {
        return false;
    }
    let sigmas = set.sigmas;
    let index = place::get_q_scale_index(sigmas, sigma);
    is_placed(place::fit_spatial_quadratic(set, index, values), is_max)
}

// The refinement accepts the candidate e.
fn is_accepted(
    set: Set,
    ratio: f32,
    e: usize,
    a: &[f32; 780],
    b: &[f32; 780],
    c: &[f32; 780],
    d: &[f32; 780],
    p: &[f32; 1560],
) -> bool
    requires { (e ≤ 1033) × (e % 780 ≤ 253) }
    ensures { result ≡ taken_of set ratio e a.now b.now c.now d.now p.now }
{
    let nine = nine_cubics(260, 0, 520, e % 780, a, b, c, d);
    accepts(set, ratio, &nine, p[e + 1], 780 <= e)
}

// 1 for each pixel with an accepted candidate.
pub fn accept_list(
    set: Set,
    ratio: f32,
    k: usize,
    a: &[f32; 780],
    b: &[f32; 780],
    c: &[f32; 780],
    d: &[f32; 780],
    p: &[f32; 1560],
    codes: &[u32; 512],
    keep: &mut [u8; 256],
)
    requires k_bound { k ≤ 512 }
    requires coded { Coded codes.now k }
    ensures { Raised (λ e. taken_of set ratio e a.now b.now c.now d.now p.now ≡ false)
        codes.now k keep.old keep.new }
{
    raise_codes(&codes[..k], keep, |e| {
        is_accepted(set, ratio, e, a, b, c, d, p)
    });
}
