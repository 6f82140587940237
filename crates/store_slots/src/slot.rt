// The bytes of one slot.
ghost use Rattle.std.specs.Prelude.{◌≡◌, ◌+◌, ◌≤◌, length, take, drop};
ghost use Rattle.record.specs.Layout.{spot_width};
ghost use Rattle.store_slots.specs.Slots.{free_bytes, is_free, bad_slot};

use record::SPOT_WIDTH;

const MARK: usize = 38;

// A free slot's bytes.
pub fn free_bytes() -> [u8; SPOT_WIDTH]
    ensures { result ≡ free_bytes }
{
    let mut bytes = [0u8; SPOT_WIDTH];
    bytes[MARK] = 255;
    bytes
}

// Whether the bytes are those of a free slot.
pub fn is_free(s: &[u8]) -> bool
    requires { length s.now ≡ spot_width }
    ensures { result ≡ is_free s.now }
{
    s == free_bytes().as_slice()
}

// Whether the slot is neither free nor holds a readable record.
pub fn is_bad(rows: usize, cols: usize, s: &[u8]) -> bool
    requires rows_bound { rows ≤ 4096 }
    requires cols_bound { cols ≤ 4096 }
    requires s_len { length s.now ≡ spot_width }
    ensures { result ≡ bad_slot rows cols s.now }
{
    if is_free(s) {
        return false;
    }
    !record::is_readable(rows, cols, record::record_from(s, 0))
}

// A slot's bytes, copied from the byte at on.
pub fn bytes_at(b: &[u8], at: usize) -> [u8; SPOT_WIDTH]
    requires { at + spot_width ≤ length b.now }
    ensures { result ≡ take spot_width (drop at b.now) }
{
    let mut s = [0u8; SPOT_WIDTH];
    s.copy_from_slice(&b[at..at + SPOT_WIDTH]);
    s
}
