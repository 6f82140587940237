// The whole number nearest to a float, a half going to the larger, from its bit pattern: no float is added, since v + 0.5 would be rounded.
ghost use Rattle.std.specs.Prelude.{◌≡◌, ◌+◌, ◌/◌, ◌^◌};
ghost use Rattle.whole.specs.Nearest.{nearest_of, nearest_bits};

use float::{field, lead, to_u64};

// The number nearest to v / 2^24, a half going to the larger.
fn near(v: u64) -> u64
    ensures { result ≡ (v + 2 ^ 23) / 2 ^ 24 }
{
    let cut = v >> 24;
    let part = v & 0xff_ffff;
    if part < 0x80_0000 { cut } else { cut + 1 }
}

// The number nearest to the value of the pattern b: below 0.5 it is 0, from 2^32 on the largest.
fn near_bits(b: u32) -> u32
    ensures { result ≡ nearest_bits b }
{
    if 0x7f80_0000 < b {
        return 0;
    }
    if b < 0x3f00_0000 {
        return 0;
    }
    if 0x4f80_0000 <= b {
        return 0xffff_ffff;
    }
    near(to_u64(lead(b)) << (field(b) - 126)) as u32
}

// The u32 nearest to x: 0 for each value below 0 and for NaN, the largest for each value above it.
pub fn nearest(x: f32) -> u32
    ensures { result ≡ nearest_of x }
{
    near_bits(words::bits(x))
}
