// The face of the reader of a partner's list: its answer as numbers.
#![tactic(auto)]

ghost use Rattle.std.specs.Prelude.{◌≡◌};
ghost use Rattle.face_partner.specs.Face.{told, found_told, reply_told, accept_face};

use follow::Finding;
use tables::{Refusal, Thresholds};

// A call's number, what was found, and the value beside it.
// Stays: C takes the three as numbers.
#[derive(Clone, Copy)]
pub struct Told {
    pub number: u32,
    pub finding: u32,
    pub value: u64,
}

// A finding as numbers.
fn found_told(found: Finding) -> Told
    ensures { result ≡ found_told found }
{
    match found {
        Finding::Yes => Told {
            number: 0,
            finding: 1,
            value: 0,
        },
        Finding::Extra(i) => Told {
            number: 0,
            finding: 2,
            value: i as u64,
        },
        Finding::Absent(i) => Told {
            number: 0,
            finding: 3,
            value: i as u64,
        },
        Finding::Different(i) => Told {
            number: 0,
            finding: 4,
            value: i as u64,
        },
    }
}

// A reply as numbers.
fn reply_told(reply: Result<Finding, Refusal>) -> Told
    ensures { result ≡ reply_told reply }
{
    match reply {
        Ok(found) => found_told(found),
        Err(why) => Told {
            number: u32::from(why),
            finding: 0,
            value: tables::refusals::value_of(why),
        },
    }
}

// Whether the list is the one that is due for the four levels, under the set in the record set. Answers 0, with what was found in finding and the index of the
// first record that differs in value; or the refusal's number, with 0 in finding and the value that goes with it in value.
// Stays: C takes the answer as a number and its value through a pointer, and passes each level as a pointer.
pub fn accept<'a>(
    set: &'a [u8],
    thresholds: Thresholds,
    rows: usize,
    cols: usize,
    octave: usize,
    l0: &'a [f32],
    l1: &'a [f32],
    l2: &'a [f32],
    l3: &'a [f32],
    list: &'a [u8],
    finding: &mut u32,
    value: &mut u64,
) -> u32
    ensures { told result finding.new value.new
        ≡ accept_face set.now thresholds rows cols octave
        l0.now l1.now l2.now l3.now list.now }
{
    let tables = tables::read_or_blank(set);
    let reply = partner::accept(tables, thresholds, rows, cols, octave, l0, l1, l2, l3, list);
    let told = reply_told(reply);
    *finding = told.finding;
    *value = told.value;
    told.number
}
