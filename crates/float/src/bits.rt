// The two parts of a positive finite pattern, and a number made wider.
ghost use Rattle.std.specs.Prelude.{◌≡◌};
ghost use Rattle.float.specs.Pattern.{lead_of, field_of};

// The significand, its leading digit with it.
pub fn lead(b: u32) -> u32
    ensures { result ≡ lead_of b }
{
    if b < 0x80_0000 {
        b
    } else {
        0x80_0000 + (b & 0x7f_ffff)
    }
}

// The exponent's field; that of a subnormal counts as 1.
pub fn field(b: u32) -> u32
    ensures { result ≡ field_of b }
{
    if b < 0x80_0000 { 1 } else { b >> 23 }
}

// The same number, wider.
pub fn to_u64(m: u32) -> u64
    ensures { result ≡ m }
{
    m as u64
}
