// The tiles of a scene, one after the other.
ghost use Rattle.std.specs.Prelude.{◌≡◌, length};
ghost use Rattle.scene_checks.specs.Checks.{SceneIn};
ghost use Rattle.turn.specs.Turn.{scene_maps};
ghost use Rattle.scene.specs.Scene.{after, left_all};

use crate::Answer;
use tables::{Refusal, Set, Thresholds};

// All tiles, row by row, as long as their records have room.
pub fn run<'a>(
    set: Set,
    th: Thresholds,
    rows: usize,
    cols: usize,
    octave: usize,
    l0: &'a [f32],
    l1: &'a [f32],
    l2: &'a [f32],
    l3: &'a [f32],
    t0: &mut [f32],
    t1: &mut [f32],
    t2: &mut [f32],
    t3: &mut [f32],
    out: &mut [u8],
) -> Result<Answer, Refusal>
    requires { SceneIn set th rows cols octave (length l0.now) (length l1.now) (length l2.now) (length l3.now)
        (length t0.old) (length t1.old) (length t2.old) (length t3.old) }
    ensures { after result t0.new t1.new t2.new t3.new out.new
        ≡ left_all (scene_maps set th rows cols octave l0.now l1.now l2.now l3.now)
        t0.old t1.old t2.old t3.old out.old }
{
    let across = tiles::tiles_of(cols);
    let total = tiles::tiles_of(rows) * across;
    let mut done: usize = 0;
    for k in 0..total {
        let told = turn::turn(
            set,
            th,
            rows,
            cols,
            octave,
            k / across,
            k % across,
            l0,
            l1,
            l2,
            l3,
            t0,
            t1,
            t2,
            t3,
            out,
            done,
        );
        let Some(n) = told else {
            return Ok(Answer::Full(k));
        };
        done = n;
    }
    Ok(Answer::Found(done))
}
