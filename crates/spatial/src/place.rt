// The inner level of a sigma, the spatial fit of nine values, and the displacement that the fit gives.
ghost use Rattle.std.specs.Prelude.{◌≡◌, ℕ, ◌<◌, ◌≤◌, ◌+◌, ◌*◌, get_or};
ghost use Rattle.float.specs.Num.{◌⊗◌, f0};
ghost use Rattle.fit.specs.Cubic.{◌at◌};
ghost use Rattle.spatial.specs.Place.{index_of, block_of, sum_from, spatial_of, denominator_of, steep_of, delta_yOf, delta_xOf};

use fit::scale_fit::bends;
use tables::Set;

// The inner level whose fit a sigma takes.
pub fn get_q_scale_index(sigmas: [f32; 4], sigma: f32) -> u8
    ensures { result ≡ index_of sigmas sigma }
{
    if sigma <= sigmas[1] { 1 } else { 2 }
}

// The value that an order byte names; NaN where there is none.
fn value_named(v: &[f32], name: u8) -> f32
    ensures { result ≡ v.now at name }
{
    let i = usize::from(name);
    if i < v.len() { v[i] } else { 0.0 / 0.0 }
}

// The nine values in the order of the rows' terms.
fn ordered(order: [u8; 9], v: &[f32]) -> [f32; 9]
    ensures { (i : ℕ) → i < 9 → result at i ≡ v.now at (get_or order i 9) }
{
    [
        value_named(v, order[0]),
        value_named(v, order[1]),
        value_named(v, order[2]),
        value_named(v, order[3]),
        value_named(v, order[4]),
        value_named(v, order[5]),
        value_named(v, order[6]),
        value_named(v, order[7]),
        value_named(v, order[8]),
    ]
}

// A row's sum, from the left. It starts at +0.
fn row_sum(w: &[f32; 90], v: &[f32; 9], block: usize, row: usize) -> f32
    requires block_bound { block ≤ 45 }
    requires row_bound { row < 5 }
    ensures { result ≡ sum_from 9 0 f0 (λ i. w.now at (block + 9 * row + i) ⊗ v.now at i) }
{
    let base = block + 9 * row;
    let mut acc = 0.0f32;
    for i in 0..9 {
        acc = acc + w[base + i] * v[i];
    }
    acc
}

// Where the spatial entries of a scale index begin.
fn block_of(index: u8) -> usize
    ensures { (result ≡ block_of index) × (result ≤ 45) }
{
    if index == 1 { 0 } else { 45 }
}

// The five numbers w1 to w5 of the spatial fit.
pub fn fit_spatial_quadratic(set: Set, index: u8, values: [f32; 9]) -> [f32; 5]
    ensures { result ≡ spatial_of set index values }
{
    let block = block_of(index);
    let order = set.order;
    let v = ordered(order, &values);
    [
        row_sum(&set.spatial, &v, block, 0),
        row_sum(&set.spatial, &v, block, 1),
        row_sum(&set.spatial, &v, block, 2),
        row_sum(&set.spatial, &v, block, 3),
        row_sum(&set.spatial, &v, block, 4),
    ]
}

// The denominator of the fit's stationary point.
pub fn denominator(w: [f32; 5]) -> f32
    ensures { result ≡ denominator_of w }
{
    4.0 * w[0] * w[1] - w[2] * w[2]
}

// The fit's leading numbers are finite and w1 has the polarity's sign.
pub fn is_steep(w: [f32; 5], is_max: bool) -> bool
    ensures { result ≡ steep_of w is_max }
{
    float::is_finite(w[0])
        & float::is_finite(w[1])
        & float::is_finite(w[2])
        & float::is_finite(denominator(w))
        & bends(w[0], is_max)
}

// The displacement along a column.
pub fn delta_y(w: [f32; 5]) -> f32
    ensures { result ≡ delta_yOf w }
{
    (w[2] * w[3] - 2.0 * w[0] * w[4]) / denominator(w)
}

// The displacement along a row, given the one along the column.
pub fn delta_x(w: [f32; 5], dy: f32) -> f32
    ensures { result ≡ delta_xOf w dy }
{
    (-w[3] - w[2] * dy) / (2.0 * w[0])
}
