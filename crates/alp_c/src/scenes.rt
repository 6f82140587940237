// The C face of scenes.
ghost use Rattle.std.specs.Prelude.{◌≡◌};
ghost use Rattle.face.specs.Face.{thresholds_of};
ghost use Rattle.face_scene.specs.Face.{scene_left, scene_face};

use crate::thresholds_of;

// Lists the spots of a scene in the buffer out, under the set in the record set; each tile is copied into the slices t0 to t3. Answers 0, with the count in
// value, 6 with the whole tiles written in value, or the refusal's number, with the value that goes with it in value.
pub fn uramsheg_scene<'a>(
    set: &'a [u8],
    peak: f32,
    sigma: f32,
    ratio: f32,
    low: f32,
    high: f32,
    rows: usize,
    cols: usize,
    octave: usize,
    l0: &'a [f32],
    l1: &'a [f32],
    l2: &'a [f32],
    l3: &'a [f32],
    t0: &mut [f32],
    t1: &mut [f32],
    t2: &mut [f32],
    t3: &mut [f32],
    out: &mut [u8],
    value: &mut u64,
) -> u32
    ensures { scene_left result value.new t0.new t1.new t2.new t3.new out.new
        ≡ scene_face set.now (thresholds_of peak sigma ratio low high) rows cols octave l0.now l1.now l2.now l3.now
        t0.old t1.old t2.old t3.old out.old }
{
    let thresholds = thresholds_of(peak, sigma, ratio, low, high);
    face_scene::scene(
        set, thresholds, rows, cols, octave, l0, l1, l2, l3, t0, t1, t2, t3, out, value,
    )
}
