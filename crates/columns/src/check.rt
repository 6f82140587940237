// The roots of a line, guessed and then checked.
ghost use Rattle.std.specs.Prelude.{◌≤◌, ◌≡◌, length};
ghost use Rattle.std.specs.Float.{nan};
ghost use Rattle.fit.specs.Cubic.{◌at◌};
ghost use Rattle.columns.specs.Line.{Written};
ghost use Rattle.columns.specs.Known.{Known};

use fit::pick;

// The root of d by the guess g, where it is the root; 0 for a d that is not above 0; else -1.
// Stays: `Known` says the three by numbers, which go into a line of floats.
fn checked(d: f32, g: f32) -> f32
    ensures { Known result d }
{
    let t = quick::tried(d, g);
    let up = d > 0.0;
    pick(t.near & up, f32::from_bits(t.root), pick(up, -1.0, 0.0))
}

// A guess for each of the first n. Nothing is asked of it.
pub fn guess_line(n: usize, q: &[f32; 256], g: &mut [f32; 256])
    requires { n ≤ 256 }
{
    for i in 0..n {
        g[i] = quick::guess_of(q[i]);
    }
}

// What is known of the roots of the first n.
pub fn check_line(n: usize, q: &[f32; 256], g: &[f32; 256], r: &mut [f32; 256])
    requires n_bound { n ≤ 256 }
    ensures { Written nan r.old r.new 0 n (λ i x. Known x (q.now at i)) }
{
    for i in 0..n {
        r[i] = checked(q[i], g[i]);
    }
}
