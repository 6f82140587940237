// The first pass at one column, for two kernels at once: as far as both reach, each pair of columns is summed once.
ghost use Rattle.std.specs.Prelude.{◌≡◌, ◌+◌, ◌-◌, ◌≤◌, ◌<◌, min, length};
ghost use Rattle.blur.specs.Blur.{across_at};
ghost use Rattle.blur.specs.Passes.{Map, Radii, Holds, Across, Shared, columns};

use kernels::Kernel;

// The place t before a; the first where there is none.
fn lower(a: usize, t: usize) -> usize
    ensures { result ≡ a - t }
{
    a.saturating_sub(t)
}

// The place t behind a; the last where there is none.
fn upper(a: usize, t: usize, last: usize) -> usize
    requires a_bound { a ≤ 4096 }
    requires t_bound { t ≤ 16 }
    ensures { result ≡ min (a + t) last }
{
    last.min(a + t)
}

// One or two taps more for one kernel; how many are then done.
fn step(
    raw: &[f32],
    rows: usize,
    cols: usize,
    col: usize,
    k: Kernel,
    t: usize,
    line: &mut [f32; 4128],
) -> usize
    requires map { Map (length raw.now) rows cols col }
    requires radius_bound { k.radius ≤ 16 }
    requires t_lt_radius { t < k.radius }
    requires holds { Holds line.old rows (columns raw.now rows cols k.taps col t) }
    ensures { Across t result k.radius line.new rows (columns raw.now rows cols k.taps col) }
{
    let s = t + 1;
    let u = t + 2;
    let lo = lower(col, s) * rows;
    let hi = upper(col, s, cols - 1) * rows;
    if u <= k.radius {
        let lo2 = lower(col, u) * rows;
        let hi2 = upper(col, u, cols - 1) * rows;
        lines::add_two(raw, lo, hi, k.taps[s], lo2, hi2, k.taps[u], rows, line, 16);
        return u;
    }
    lines::add(raw, lo, hi, rows, k.taps[s], line, 16);
    s
}

// The taps past t for one kernel.
fn rest(
    raw: &[f32],
    rows: usize,
    cols: usize,
    col: usize,
    k: Kernel,
    t: usize,
    line: &mut [f32; 4128],
)
    requires map { Map (length raw.now) rows cols col }
    requires radius_bound { k.radius ≤ 16 }
    requires t_le_radius { t ≤ k.radius }
    requires holds { Holds line.old rows (columns raw.now rows cols k.taps col t) }
    ensures { Holds line.new rows (λ r. across_at raw.now rows cols k r col) }
{
    let mut s = t;
    // Stays: `step` says how many taps a turn does, one or two; no range counts that.
    while s < k.radius {
        s = step(raw, rows, cols, col, k, s, line);
    }
}

// Two taps more for both kernels.
fn step_both(
    raw: &[f32],
    rows: usize,
    cols: usize,
    col: usize,
    j: Kernel,
    k: Kernel,
    t: usize,
    a: &mut [f32; 4128],
    b: &mut [f32; 4128],
)
    requires map { Map (length raw.now) rows cols col }
    requires t_bound { t + 2 ≤ 16 }
    requires holds { Holds a.old rows (columns raw.now rows cols j.taps col t) }
    requires holds_2 { Holds b.old rows (columns raw.now rows cols k.taps col t) }
    ensures { Holds a.new rows (columns raw.now rows cols j.taps col (t + 2))
        × Holds b.new rows (columns raw.now rows cols k.taps col (t + 2)) }
{
    let s = t + 1;
    let u = t + 2;
    let lo = lower(col, s) * rows;
    let hi = upper(col, s, cols - 1) * rows;
    let lo2 = lower(col, u) * rows;
    let hi2 = upper(col, u, cols - 1) * rows;
    lines::add_both(
        raw, lo, hi, lo2, hi2, rows, j.taps[s], j.taps[u], k.taps[s], k.taps[u], a, b,
    );
}

// The taps for both kernels as far as both reach, two at a time; how many are done.
fn shared(
    raw: &[f32],
    rows: usize,
    cols: usize,
    col: usize,
    j: Kernel,
    k: Kernel,
    a: &mut [f32; 4128],
    b: &mut [f32; 4128],
) -> usize
    requires map { Map (length raw.now) rows cols col }
    requires radii { Radii j k }
    requires a_len { (length a.old ≡ 4128) × (length b.old ≡ 4128) }
    ensures { Shared result j k a.new b.new rows
        (columns raw.now rows cols j.taps col) (columns raw.now rows cols k.taps col) }
{
    lines::weigh(raw, col * rows, rows, j.taps[0], a, 16);
    lines::weigh(raw, col * rows, rows, k.taps[0], b, 16);
    let least = j.radius.min(k.radius);
    let mut t: usize = 0;
    // Stays: two taps a turn, and the number done is the answer; a range would hide both.
    while t + 2 <= least {
        step_both(raw, rows, cols, col, j, k, t, a, b);
        t += 2;
    }
    t
}

// The first pass at one column, for both kernels.
pub fn both(
    raw: &[f32],
    rows: usize,
    cols: usize,
    col: usize,
    j: Kernel,
    k: Kernel,
    a: &mut [f32; 4128],
    b: &mut [f32; 4128],
)
    requires map { Map (length raw.now) rows cols col }
    requires radii { Radii j k }
    requires a_len { (length a.old ≡ 4128) × (length b.old ≡ 4128) }
    ensures { Holds a.new rows (λ r. across_at raw.now rows cols j r col)
        × Holds b.new rows (λ r. across_at raw.now rows cols k r col) }
{
    let t = shared(raw, rows, cols, col, j, k, a, b);
    rest(raw, rows, cols, col, j, t, a);
    rest(raw, rows, cols, col, k, t, b);
}
