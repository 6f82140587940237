// Candidates that the upper or the lower neighbour reaches, by the own column's lines in the slot at 0.
ghost use Rattle.std.specs.Prelude.{◌≡◌, true, ◌%◌, ◌≤◌, length};
ghost use Rattle.rivals.specs.List.{Coded, Thinned};
ghost use Rattle.sides.specs.Beside.{upright_of};

use fit::scale_fit::{neighbor_scale_band, sign_of};
use rivals::list::thin_codes;

// The candidate e is reached by a neighbour's point or at an end of its band.
fn is_reached(
    sigmas: [f32; 4],
    e: usize,
    a: &[f32; 780],
    b: &[f32; 780],
    c: &[f32; 780],
    d: &[f32; 780],
    p: &[f32; 1560],
    v: &[f32; 1560],
) -> bool
    requires { (e ≤ 1033) × (e % 780 ≤ 253) }
    ensures { result ≡ upright_of sigmas e a.now b.now c.now d.now p.now v.now }
{
    let val = v[e + 1];
    let band = neighbor_scale_band(sigmas, p[e + 1]);
    rivals::near::is_either(p, v, e, val, band)
        | rivals::ends::is_either(a, b, c, d, e % 780, sign_of(780 <= e), val, band)
}

// The candidates that neither reaches; answers how many.
pub fn own_list(
    sigmas: [f32; 4],
    k: usize,
    a: &[f32; 780],
    b: &[f32; 780],
    c: &[f32; 780],
    d: &[f32; 780],
    p: &[f32; 1560],
    v: &[f32; 1560],
    codes: &mut [u32; 512],
) -> usize
    requires k_bound { k ≤ 512 }
    requires coded { Coded codes.old k }
    ensures { Thinned (λ e. upright_of sigmas e a.now b.now c.now d.now p.now v.now ≡ true)
        codes.old k codes.new result }
{
    thin_codes(&mut codes[..k], move |e| {
        is_reached(sigmas, e, a, b, c, d, p, v)
    })
}
