// The detector as a C or Rust program links it: each export is one call of alp_c, under the same promise.
#![tactic(auto)]

mod accepting; // accepting.rt: a partner's list
mod desking; // desking.rt: the table that two desks share
mod feeding; // feeding.rt: the feed of columns
mod scenes; // scenes.rt: whole scenes
mod storing; // storing.rt: the store of a day's spots

ghost use Rattle.std.specs.Prelude.{◌≡◌, [], ◌∷◌};
ghost use Rattle.tables.specs.Refusal.{read_set_of};
ghost use Rattle.pyramid.specs.Pyramid.{octave_count_of};
ghost use Rattle.face.specs.Face.{left, thresholds_of, check_face};
ghost use Rattle.face_join.specs.Face.{join_face, join_old_face};
ghost use Rattle.face_correct.specs.Face.{size_left, correct_face};
ghost use Rattle.face_halve.specs.Face.{halved_left, downsample_face};
ghost use Rattle.face_levels.specs.Face.{levels_left, levels_face};
ghost use Rattle.face_detect.specs.Face.{detect_face};

// Lists the spots of four levels in the buffer out, under the set in the record set. Answers 0, with the count in value, or the refusal's number, with
// the value that goes with it in value.
#[unsafe(no_mangle)]
pub extern "C" fn uramsheg_detect<'a>(
    set: &'a [u8],
    peak: f32,
    sigma: f32,
    ratio: f32,
    low: f32,
    high: f32,
    rows: usize,
    cols: usize,
    octave: usize,
    l0: &'a [f32],
    l1: &'a [f32],
    l2: &'a [f32],
    l3: &'a [f32],
    out: &mut [u8],
    value: &mut u64,
) -> u32
    ensures { left result value.new out.new
        ≡ detect_face set.now (thresholds_of peak sigma ratio low high) rows cols octave
        l0.now l1.now l2.now l3.now out.old }
{
    alp_c::uramsheg_detect(
        set, peak, sigma, ratio, low, high, rows, cols, octave, l0, l1, l2, l3, out, value,
    )
}

// Whether the record holds a good set: 0, or 4 where it is refused.
#[unsafe(no_mangle)]
pub extern "C" fn uramsheg_set_check(set: &[u8]) -> u32
    ensures { result ≡ check_face (read_set_of set.now) }
{
    alp_c::uramsheg_set_check(set)
}

// Sizes the records of a list found on a map of rows by cols, in the buffer out, under the set in the record set. Answers 0, with the count in value,
// or the refusal's number, with the value that goes with it in value.
#[unsafe(no_mangle)]
pub extern "C" fn uramsheg_join<'a>(
    set: &'a [u8],
    rows: usize,
    cols: usize,
    list: &'a [u8],
    out: &mut [u8],
    value: &mut u64,
) -> u32
    ensures { left result value.new out.new
        ≡ join_face set.now rows cols list.now out.old }
{
    alp_c::uramsheg_join(set, rows, cols, list, out, value)
}

// The same of an old list, whose records have 40 bytes and their sized ones 52.
#[unsafe(no_mangle)]
pub extern "C" fn uramsheg_join_old<'a>(
    set: &'a [u8],
    rows: usize,
    cols: usize,
    list: &'a [u8],
    out: &mut [u8],
    value: &mut u64,
) -> u32
    ensures { left result value.new out.new
        ≡ join_old_face set.now rows cols list.now out.old }
{
    alp_c::uramsheg_join_old(set, rows, cols, list, out, value)
}

// Corrects the sigma of a spot with these samples under the set in the record set. Answers 0, with the corrected sigma in corrected and 0 in cause, or the
// refusal's number, with the value that goes with it in cause and corrected neither read nor written.
#[unsafe(no_mangle)]
pub extern "C" fn uramsheg_correct(
    set: &[u8],
    s0: f32,
    s1: f32,
    s2: f32,
    s3: f32,
    sigma: f32,
    is_max: bool,
    corrected: &mut f32,
    cause: &mut u64,
) -> u32
    ensures { size_left result cause.new corrected.new
        ≡ correct_face set.now (s0 ∷ s1 ∷ s2 ∷ s3 ∷ []) sigma is_max corrected.old }
{
    alp_c::uramsheg_correct(set, s0, s1, s2, s3, sigma, is_max, corrected, cause)
}

// How many octaves a map of these sides has.
#[unsafe(no_mangle)]
pub extern "C" fn uramsheg_octave_count(rows: usize, cols: usize) -> u32
    ensures { result ≡ octave_count_of rows cols }
{
    alp_c::uramsheg_octave_count(rows, cols)
}

// Halves a level into the buffer out. Answers 0, with the new sides in halfrows and halfcols, or the refusal's number, with both neither read nor
// written.
#[unsafe(no_mangle)]
pub extern "C" fn uramsheg_downsample(
    rows: usize,
    cols: usize,
    level: &[f32],
    out: &mut [f32],
    halfrows: &mut u64,
    halfcols: &mut u64,
) -> u32
    ensures { halved_left result halfrows.new halfcols.new out.new
        ≡ downsample_face rows cols level.now out.old halfrows.old halfcols.old }
{
    alp_c::uramsheg_downsample(rows, cols, level, out, halfrows, halfcols)
}

// Makes the four levels of a raw map at the starts of the buffers l0 to l3, under the set in the record set. Answers 0, or the refusal's number.
#[unsafe(no_mangle)]
pub extern "C" fn uramsheg_levels(
    set: &[u8],
    rows: usize,
    cols: usize,
    octave: usize,
    raw: &[f32],
    l0: &mut [f32],
    l1: &mut [f32],
    l2: &mut [f32],
    l3: &mut [f32],
) -> u32
    ensures { levels_left result l0.new l1.new l2.new l3.new
        ≡ levels_face set.now rows cols octave raw.now
        l0.old l1.old l2.old l3.old }
{
    alp_c::uramsheg_levels(set, rows, cols, octave, raw, l0, l1, l2, l3)
}
