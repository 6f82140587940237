// Floats weighed, added in pairs, and repeated: one loop each, which the compiler makes wide.
#![tactic(auto)]

ghost use Rattle.std.specs.Prelude.{◌≡◌, ◌+◌, ◌-◌, ◌≤◌, length};
ghost use Rattle.grid.specs.Grid.{list_of, Stored};
ghost use Rattle.lines.specs.Lines.{from, weighed, more, Padding};

// The n floats of a list from p on, times w, go to the places from at on.
pub fn weigh(list: &[f32], p: usize, n: usize, w: f32, out: &mut [f32], at: usize)
    requires n_in_bounds { p + n ≤ length list.now }
    requires n_in_bounds_2 { at + n ≤ length out.old }
    ensures { Stored out.old out.new at (list_of (weighed list.now p w) n) }
{
    for i in 0..n {
        out[at + i] = list[p + i] * w;
    }
}

// To the n floats from at on the pairs of a list from lo and from hi on are added, each summed first, times w.
pub fn add(list: &[f32], lo: usize, hi: usize, n: usize, w: f32, out: &mut [f32], at: usize)
    requires n_in_bounds { lo + n ≤ length list.now }
    requires n_in_bounds_2 { hi + n ≤ length list.now }
    requires n_in_bounds_3 { at + n ≤ length out.old }
    ensures { Stored out.old out.new at
        (list_of (more (from out.old at) list.now lo hi w) n) }
{
    for i in 0..n {
        out[at + i] = out[at + i] + (list[lo + i] + list[hi + i]) * w;
    }
}

// Two such addings, one after the other.
pub fn add_two(
    list: &[f32],
    lo: usize,
    hi: usize,
    w: f32,
    lo2: usize,
    hi2: usize,
    w2: f32,
    n: usize,
    out: &mut [f32],
    at: usize,
)
    requires n_in_bounds { lo + n ≤ length list.now }
    requires n_in_bounds_2 { hi + n ≤ length list.now }
    requires n_in_bounds_3 { lo2 + n ≤ length list.now }
    requires n_in_bounds_4 { hi2 + n ≤ length list.now }
    requires n_in_bounds_5 { at + n ≤ length out.old }
    ensures { Stored out.old out.new at
        (list_of (more (more (from out.old at) list.now lo hi w) list.now lo2 hi2 w2) n) }
{
    for i in 0..n {
        out[at + i] = out[at + i]
            + (list[lo + i] + list[hi + i]) * w
            + (list[lo2 + i] + list[hi2 + i]) * w2;
    }
}

// The same two pairs added to two lines from place 16 on, in each with its own weights.
pub fn add_both(
    list: &[f32],
    lo: usize,
    hi: usize,
    lo2: usize,
    hi2: usize,
    n: usize,
    u: f32,
    u2: f32,
    v: f32,
    v2: f32,
    a: &mut [f32; 4128],
    b: &mut [f32; 4128],
)
    requires n_in_bounds { lo + n ≤ length list.now }
    requires n_in_bounds_2 { hi + n ≤ length list.now }
    requires n_in_bounds_3 { lo2 + n ≤ length list.now }
    requires n_in_bounds_4 { hi2 + n ≤ length list.now }
    requires n_bound { n ≤ 4096 }
    requires a_len { (length a.old ≡ 4128) × (length b.old ≡ 4128) }
    ensures { Stored a.old a.new 16
        (list_of (more (more (from a.old 16) list.now lo hi u) list.now lo2 hi2 u2) n)
        × Stored b.old b.new 16
        (list_of (more (more (from b.old 16) list.now lo hi v) list.now lo2 hi2 v2) n) }
{
    for i in 0..n {
        let s = list[lo + i] + list[hi + i];
        let s2 = list[lo2 + i] + list[hi2 + i];
        a[16 + i] = a[16 + i] + s * u + s2 * u2;
        b[16 + i] = b[16 + i] + s * v + s2 * v2;
    }
}

// Four such addings: each next pair is one place further out on both sides.
pub fn add_four(
    list: &[f32],
    lo: usize,
    hi: usize,
    w: f32,
    w2: f32,
    w3: f32,
    w4: f32,
    n: usize,
    out: &mut [f32],
    at: usize,
)
    requires le_lo { (3 ≤ lo) × (lo + n ≤ length list.now) }
    requires n_in_bounds { hi + 3 + n ≤ length list.now }
    requires n_in_bounds_2 { at + n ≤ length out.old }
    ensures { Stored out.old out.new at
        (list_of (more (more (more (more (from out.old at) list.now lo hi w) list.now (lo - 1) (hi + 1) w2)
        list.now (lo - 2) (hi + 2) w3) list.now (lo - 3) (hi + 3) w4) n) }
{
    for i in 0..n {
        out[at + i] = out[at + i]
            + (list[lo + i] + list[hi + i]) * w
            + (list[lo - 1 + i] + list[hi + 1 + i]) * w2
            + (list[lo - 2 + i] + list[hi + 2 + i]) * w3
            + (list[lo - 3 + i] + list[hi + 3 + i]) * w4;
    }
}

// The float x goes to the 16 places from at on.
fn repeat(out: &mut [f32], at: usize, x: f32)
    requires { at + 16 ≤ length out.old }
    ensures { Stored out.old out.new at (list_of (λ i. x) 16) }
{
    out[at..at + 16].fill(x);
}

// The line's first float goes to the 16 places before it, its last to the 16 behind it.
pub fn pad(n: usize, line: &mut [f32; 4128])
    requires le_n { (1 ≤ n) × (n ≤ 4096) }
    requires line_len { length line.old ≡ 4128 }
    ensures { Padding line.old line.new n }
{
    let first = line[16];
    let last = line[15 + n];
    repeat(line, 0, first);
    repeat(line, 16 + n, last);
}
