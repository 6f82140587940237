// Candidates that one of the six beside them reaches at an end of the band.
ghost use Rattle.std.specs.Prelude.{◌≡◌, true, ◌%◌, ◌≤◌, length};
ghost use Rattle.rivals.specs.List.{Coded, Thinned};
ghost use Rattle.sides.specs.Beside.{beside_of};

use fit::scale_fit::{neighbor_scale_band, sign_of};
use rivals::ends::is_three;
use rivals::list::thin_codes;

// One of the six reaches the candidate e.
fn is_beside(
    sigmas: [f32; 4],
    e: usize,
    a: &[f32; 780],
    b: &[f32; 780],
    c: &[f32; 780],
    d: &[f32; 780],
    p: &[f32; 1560],
    v: &[f32; 1560],
) -> bool
    requires { (e ≤ 1033) × (e % 780 ≤ 253) }
    ensures { result ≡ beside_of sigmas e a.now b.now c.now d.now p.now v.now }
{
    let h = e % 780;
    let val = v[e + 1];
    let sign = sign_of(780 <= e);
    let band = neighbor_scale_band(sigmas, p[e + 1]);
    is_three(a, b, c, d, 260 + h, sign, val, band) | is_three(a, b, c, d, 520 + h, sign, val, band)
}

// The candidates that none reaches; answers how many.
pub fn side_list(
    sigmas: [f32; 4],
    k: usize,
    a: &[f32; 780],
    b: &[f32; 780],
    c: &[f32; 780],
    d: &[f32; 780],
    p: &[f32; 1560],
    v: &[f32; 1560],
    codes: &mut [u32; 512],
) -> usize
    requires k_bound { k ≤ 512 }
    requires coded { Coded codes.old k }
    ensures { Thinned (λ e. beside_of sigmas e a.now b.now c.now d.now p.now v.now ≡ true)
        codes.old k codes.new result }
{
    thin_codes(&mut codes[..k], move |e| {
        is_beside(sigmas, e, a, b, c, d, p, v)
    })
}
