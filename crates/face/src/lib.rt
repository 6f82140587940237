// What the faces share: an answer as a number and a value. And the check of a set's record.
#![tactic(auto)]

ghost use Rattle.std.specs.Prelude.{◌≡◌};
ghost use Rattle.tables.specs.Refusal.{read_set_of};
ghost use Rattle.face.specs.Face.{answer_number, answer_value, check_face};

use tables::Refusal;

// The number of an answer: 0, or that of the refusal.
// Stays: C takes the answer as a number.
pub fn number_of<T>(answer: &Result<T, Refusal>) -> u32
    ensures { result ≡ answer_number answer.now }
{
    match answer {
        Ok(_) => 0,
        Err(why) => u32::from(*why),
    }
}

// Its value: the count, or the value that goes with the refusal.
// Stays: C takes the value through a pointer, apart from the number.
pub fn value_of(answer: Result<usize, Refusal>) -> u64
    ensures { result ≡ answer_value answer }
{
    match answer {
        Ok(n) => n as u64,
        Err(why) => tables::refusals::value_of(why),
    }
}

// Whether the record holds a good set: 0, or 4 where it is refused.
// Stays: C takes the answer as a number.
pub fn set_check(set: &[u8]) -> u32
    ensures { result ≡ check_face (read_set_of set.now) }
{
    let Err(unread) = tables::read_set(set) else {
        return 0;
    };
    u32::from(unread.why)
}
