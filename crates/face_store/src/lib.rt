// The store's face: its answers as numbers and values.
#![tactic(auto)]

ghost use Rattle.std.specs.Prelude.{◌≡◌};
ghost use Rattle.store.specs.Store.{Clear, Add, Strike, CloseUp};
ghost use Rattle.face.specs.Face.{left};
ghost use Rattle.face_store.specs.Face.{stored_value, store_face};

use face::number_of;
use store::Stored;
use tables::Refusal;

// An answer's value: the slot, the live number, or the value that goes with the refusal, else 0.
fn value_of(answer: Result<Stored, Refusal>) -> u64
    ensures { result ≡ stored_value answer }
{
    match answer {
        Ok(Stored::Done) => 0,
        Ok(Stored::At(i)) => i as u64,
        Ok(Stored::Live(n)) => n as u64,
        Err(why) => tables::refusals::value_of(why),
    }
}

// Frees every slot. Answers 0, with 0 in value, or the refusal's number, with the value that goes with it in value.
// Stays: C takes the answer as a number and its value through a pointer.
pub fn clear(buffer: &mut [u8], value: &mut u64) -> u32
    ensures { left result value.new buffer.new ≡ store_face Clear buffer.old }
{
    let answer = store::clear(buffer);
    *value = value_of(answer);
    number_of(&answer)
}

// Puts a record into the lowest free slot. Answers as clear does, but with the slot in value.
// Stays: C takes the answer as a number and its value through a pointer.
pub fn add(buffer: &mut [u8], rows: usize, cols: usize, spot: &[u8], value: &mut u64) -> u32
    ensures { left result value.new buffer.new ≡ store_face (Add rows cols spot.now) buffer.old }
{
    let answer = store::add(buffer, rows, cols, spot);
    *value = value_of(answer);
    number_of(&answer)
}

// Frees a slot. Answers as clear does.
// Stays: C takes the answer as a number and its value through a pointer.
pub fn strike(buffer: &mut [u8], rows: usize, cols: usize, slot: usize, value: &mut u64) -> u32
    ensures { left result value.new buffer.new ≡ store_face (Strike rows cols slot) buffer.old }
{
    let answer = store::strike(buffer, rows, cols, slot);
    *value = value_of(answer);
    number_of(&answer)
}

// Closes up. Answers as clear does, but with the live number in value.
// Stays: C takes the answer as a number and its value through a pointer.
pub fn close_up(buffer: &mut [u8], rows: usize, cols: usize, value: &mut u64) -> u32
    ensures { left result value.new buffer.new ≡ store_face (CloseUp rows cols) buffer.old }
{
    let answer = store::close_up(buffer, rows, cols);
    *value = value_of(answer);
    number_of(&answer)
}
