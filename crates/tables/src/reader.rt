// The parts of a set's record, each by its place.
ghost use Rattle.std.specs.Prelude.{◌≡◌, ◌≤◌, length, take, drop};
ghost use Rattle.tables.specs.Set.{blank, set_of, spare_zero};
ghost use Rattle.tables.specs.Refusal.{not_read};

use crate::{Refusal, Set, Unread};

// The nine sample-order bytes.
fn order_of(bytes: &[u8]) -> [u8; 9]
    requires { 528 ≤ length bytes.now }
    ensures { result ≡ take 9 (drop 516 bytes.now) }
{
    let mut order = [0u8; 9];
    order.copy_from_slice(&bytes[516..525]);
    order
}

// The set in the record at the start of the bytes; it need not be good.
pub fn set_of(bytes: &[u8]) -> Set
    requires { 528 ≤ length bytes.now }
    ensures { result ≡ set_of bytes.now }
{
    let mut sigmas = [0.0f32; 4];
    words::read_floats(bytes, 0, &mut sigmas);
    let mut scale = [0.0f32; 12];
    words::read_floats(bytes, 4, &mut scale);
    let mut geometry = [0.0f32; 12];
    words::read_floats(bytes, 16, &mut geometry);
    let mut spatial = [0.0f32; 90];
    words::read_floats(bytes, 28, &mut spatial);
    let mut numbers = [0.0f32; 11];
    words::read_floats(bytes, 118, &mut numbers);
    let order = order_of(bytes);
    Set {
        sigmas,
        scale,
        geometry,
        spatial,
        numbers,
        order,
    }
}

// Whether the three spare bytes are 0.
pub fn is_spare_zero(bytes: &[u8]) -> bool
    requires { length bytes.now ≡ 528 }
    ensures { result ≡ spare_zero bytes.now }
{
    (bytes[525] == 0) & (bytes[526] == 0) & (bytes[527] == 0)
}

// The set of zeros.
pub fn blank() -> Set
    ensures { result ≡ blank }
{
    Set {
        sigmas: [0.0; 4],
        scale: [0.0; 12],
        geometry: [0.0; 12],
        spatial: [0.0; 90],
        numbers: [0.0; 11],
        order: [0; 9],
    }
}

// The answer to a record that is not that of a good set.
pub fn refused() -> Unread
    ensures { result ≡ not_read }
{
    Unread {
        why: Refusal::BadSet,
        set: blank(),
    }
}
