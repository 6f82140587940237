// Four floats at a time.
ghost use Rattle.std.specs.Prelude.{◌≡◌};
ghost use Rattle.profile.specs.Four.{squares_of, less_of, over_of, roots_of, products_of, quotients_of, sum_of, mean_of, spread_of, dot_of, energy_of, largest_of, all_above, all_below, usable, all_usable};

// Each times itself.
pub fn squares(v: [f32; 4]) -> [f32; 4]
    ensures { result ≡ squares_of v }
{
    products(v, v)
}

// Each less m.
fn less(v: [f32; 4], m: f32) -> [f32; 4]
    ensures { result ≡ less_of v m }
{
    [v[0] - m, v[1] - m, v[2] - m, v[3] - m]
}

// Each over m.
pub fn over(v: [f32; 4], m: f32) -> [f32; 4]
    ensures { result ≡ over_of v m }
{
    [v[0] / m, v[1] / m, v[2] / m, v[3] / m]
}

// Each one's square root.
pub fn roots(v: [f32; 4]) -> [f32; 4]
    ensures { result ≡ roots_of v }
{
    [
        quick::sqrt(v[0]),
        quick::sqrt(v[1]),
        quick::sqrt(v[2]),
        quick::sqrt(v[3]),
    ]
}

// Each times its partner.
fn products(v: [f32; 4], w: [f32; 4]) -> [f32; 4]
    ensures { result ≡ products_of v w }
{
    [v[0] * w[0], v[1] * w[1], v[2] * w[2], v[3] * w[3]]
}

// Each over its partner's absolute value.
pub fn quotients(v: [f32; 4], w: [f32; 4]) -> [f32; 4]
    ensures { result ≡ quotients_of v w }
{
    [
        v[0] / float::abs(w[0]),
        v[1] / float::abs(w[1]),
        v[2] / float::abs(w[2]),
        v[3] / float::abs(w[3]),
    ]
}

// The sum, from the first on.
fn profile_sum4(v: [f32; 4]) -> f32
    ensures { result ≡ sum_of v }
{
    v[0] + v[1] + v[2] + v[3]
}

// The mean.
pub fn mean(v: [f32; 4]) -> f32
    ensures { result ≡ mean_of v }
{
    profile_sum4(v) * 0.25
}

// Each one's distance from the mean.
pub fn spread(v: [f32; 4]) -> [f32; 4]
    ensures { result ≡ spread_of v }
{
    less(v, mean(v))
}

// The sum of the products.
pub fn dot(v: [f32; 4], w: [f32; 4]) -> f32
    ensures { result ≡ dot_of v w }
{
    profile_sum4(products(v, w))
}

// The sum of the squares.
pub fn energy(v: [f32; 4]) -> f32
    ensures { result ≡ energy_of v }
{
    profile_sum4(squares(v))
}

// The largest.
pub fn largest(v: [f32; 4]) -> f32
    ensures { result ≡ largest_of v }
{
    float::max(float::max(v[0], v[1]), float::max(v[2], v[3]))
}

// Whether all are above 0.
pub fn all_above(v: [f32; 4]) -> bool
    ensures { result ≡ all_above v }
{
    (v[0] > 0.0) & (v[1] > 0.0) & (v[2] > 0.0) & (v[3] > 0.0)
}

// Whether all are below 0.
pub fn all_below(v: [f32; 4]) -> bool
    ensures { result ≡ all_below v }
{
    (v[0] < 0.0) & (v[1] < 0.0) & (v[2] < 0.0) & (v[3] < 0.0)
}

// Whether x is finite and above 0.
fn is_usable(x: f32) -> bool
    ensures { result ≡ usable x }
{
    float::is_finite(x) & (x > 0.0)
}

// Whether all are finite and above 0.
pub fn all_usable(v: [f32; 4]) -> bool
    ensures { result ≡ all_usable v }
{
    is_usable(v[0]) & is_usable(v[1]) & is_usable(v[2]) & is_usable(v[3])
}
