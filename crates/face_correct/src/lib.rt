// The correction's face: its answer as a number, and a sigma or a cause.
#![tactic(auto)]

ghost use Rattle.std.specs.Prelude.{◌≡◌, [], ◌∷◌};
ghost use Rattle.face_correct.specs.Face.{size_left, correct_face};

// Corrects the sigma of a spot with these samples under the set in the record set. Answers 0, with the corrected sigma in corrected and 0 in cause, or the
// refusal's number, with the value that goes with it in cause and corrected neither read nor written.
// Stays: C takes the answer as a number, the sigma and the cause through pointers, and passes each sample by itself.
pub fn correct(
    set: &[u8],
    s0: f32,
    s1: f32,
    s2: f32,
    s3: f32,
    sigma: f32,
    is_max: bool,
    corrected: &mut f32,
    cause: &mut u64,
) -> u32
    ensures { size_left result cause.new corrected.new
        ≡ correct_face set.now (s0 ∷ s1 ∷ s2 ∷ s3 ∷ []) sigma is_max corrected.old }
{
    let tables = tables::read_or_blank(set);
    let answer = size::correct(tables, [s0, s1, s2, s3], sigma, is_max);
    let number = face::number_of(&answer);
    match answer {
        Ok(size) => {
            *corrected = size;
            *cause = 0;
        }
        Err(why) => {
            *cause = tables::refusals::value_of(why);
        }
    }
    number
}
