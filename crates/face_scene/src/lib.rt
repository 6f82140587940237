// A scene's face: its answer as a number and a value.
#![tactic(auto)]

ghost use Rattle.std.specs.Prelude.{◌≡◌};
ghost use Rattle.face_scene.specs.Face.{scene_packed, scene_left, scene_face};

use scene::Answer;
use tables::{Refusal, Thresholds};

// The number of an answer: 0, 6 where the output is full, or that of the refusal.
fn number_of(answer: Result<Answer, Refusal>) -> u32
    ensures { result ≡ (scene_packed answer).number }
{
    match answer {
        Ok(Answer::Found(_)) => 0,
        Ok(Answer::Full(_)) => u32::from(Refusal::Room),
        Err(why) => u32::from(why),
    }
}

// Its value: the count, the whole tiles written, or the value that goes with the refusal.
fn value_of(answer: Result<Answer, Refusal>) -> u64
    ensures { result ≡ (scene_packed answer).value }
{
    match answer {
        Ok(Answer::Found(n)) => n as u64,
        Ok(Answer::Full(n)) => n as u64,
        Err(why) => tables::refusals::value_of(why),
    }
}

// Lists the spots of a scene in the buffer out, under the set in the record set; each tile is copied into the slices t0 to t3. Answers 0, with the count in
// value, 6 with the whole tiles written in value, or the refusal's number, with the value that goes with it in value.
// Stays: C takes the answer as a number and its value through a pointer, and passes each level as a pointer.
pub fn scene<'a>(
    set: &'a [u8],
    thresholds: Thresholds,
    rows: usize,
    cols: usize,
    octave: usize,
    l0: &'a [f32],
    l1: &'a [f32],
    l2: &'a [f32],
    l3: &'a [f32],
    t0: &mut [f32],
    t1: &mut [f32],
    t2: &mut [f32],
    t3: &mut [f32],
    out: &mut [u8],
    value: &mut u64,
) -> u32
    ensures { scene_left result value.new t0.new t1.new t2.new t3.new out.new
        ≡ scene_face set.now thresholds rows cols octave l0.now l1.now l2.now l3.now
        t0.old t1.old t2.old t3.old out.old }
{
    let tables = tables::read_or_blank(set);
    let answer = scene::scene(
        tables, thresholds, rows, cols, octave, l0, l1, l2, l3, t0, t1, t2, t3, out,
    );
    *value = value_of(answer);
    number_of(answer)
}
