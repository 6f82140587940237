// The C face of the reader of a partner's list.
ghost use Rattle.std.specs.Prelude.{◌≡◌};
ghost use Rattle.face.specs.Face.{thresholds_of};
ghost use Rattle.face_partner.specs.Face.{told, accept_face};

use crate::thresholds_of;

// Whether the list is the one that is due for the four levels, under the set in the record set. Answers 0, with what was found in finding and the index of the
// first record that differs in value; or the refusal's number, with 0 in finding and the value that goes with it in value.
pub fn uramsheg_accept<'a>(
    set: &'a [u8],
    peak: f32,
    sigma: f32,
    ratio: f32,
    low: f32,
    high: f32,
    rows: usize,
    cols: usize,
    octave: usize,
    l0: &'a [f32],
    l1: &'a [f32],
    l2: &'a [f32],
    l3: &'a [f32],
    list: &'a [u8],
    finding: &mut u32,
    value: &mut u64,
) -> u32
    ensures { told result finding.new value.new
        ≡ accept_face set.now (thresholds_of peak sigma ratio low high) rows cols octave
        l0.now l1.now l2.now l3.now list.now }
{
    let thresholds = thresholds_of(peak, sigma, ratio, low, high);
    face_partner::accept(
        set, thresholds, rows, cols, octave, l0, l1, l2, l3, list, finding, value,
    )
}
