// The samples of a column of four levels. The three offsets are those of a map or of a ring of columns alike.
ghost use Rattle.std.specs.Prelude.{◌+◌, ◌≤◌, ◌<◌, ◌≡◌, length};
ghost use Rattle.columns.specs.Sample.{stencil_at, Reaches, Samples};

use grid::Levels;

// Stays: of one list alone; by nine's stencil, which takes the list after it too, each level would be passed twice.
pub fn stencil(l: &[f32], left: usize, mid: usize, right: usize, square: f32) -> f32
    requires le_mid { (1 ≤ mid) × (mid + 1 < length l.now) }
    requires left_in_bounds { (left < length l.now) × (right < length l.now) }
    ensures { result ≡ stencil_at l.now left mid right square }
{
    (l[left] + l[right] + l[mid - 1] + l[mid + 1] - 4.0 * l[mid]) * square
}

// The samples of n places, with the squared sigmas q0 to q3.
pub fn log_lines(
    levels: &Levels,
    left: usize,
    mid: usize,
    right: usize,
    n: usize,
    q0: f32,
    q1: f32,
    q2: f32,
    q3: f32,
    s0: &mut [f32; 256],
    s1: &mut [f32; 256],
    s2: &mut [f32; 256],
    s3: &mut [f32; 256],
)
    requires n_bound { n ≤ 256 }
    requires reach { Reaches levels.now left mid right n }
    ensures { Samples levels.now.l0.now levels.now.l1.now levels.now.l2.now levels.now.l3.now q0 q1 q2 q3 left mid right n
        s0.old s1.old s2.old s3.old s0.new s1.new s2.new s3.new }
{
    let l0 = levels.l0;
    let l1 = levels.l1;
    let l2 = levels.l2;
    let l3 = levels.l3;
    for i in 0..n {
        s0[i] = stencil(l0, left + i, mid + i, right + i, q0);
        s1[i] = stencil(l1, left + i, mid + i, right + i, q1);
        s2[i] = stencil(l2, left + i, mid + i, right + i, q2);
        s3[i] = stencil(l3, left + i, mid + i, right + i, q3);
    }
}
