// Words and floats as little-endian bytes, written and read.
#![tactic(auto)]

ghost use Rattle.std.specs.Prelude.{◌≡◌, [], ◌∷◌, ◌+◌, ◌*◌, ◌^◌, ◌<◌, ◌≤◌, length, take};
ghost use Rattle.std.proofs.lemmas.List.Edits.{sets};
ghost use Rattle.std.specs.Float.{binary32};
ghost use Rattle.std.specs.Float.Ieee.{to_bits, of_bits};
ghost use Rattle.words.specs.Words.{word_bytes, half_bytes, float_bytes, word_from, float_from, floats_at};

// The bit pattern of x, any NaN as 0x7fc00000.
pub fn bits(x: f32) -> u32
    ensures { result ≡ to_bits binary32 x }
{
    if x == x { f32::to_bits(x) } else { 0x7fc0_0000 }
}

// The float with the bit pattern word, NaN for each NaN pattern.
pub fn float_of(word: u32) -> f32
    ensures { result ≡ of_bits binary32 word }
{
    if word % 0x8000_0000 <= 0x7f80_0000 {
        f32::from_bits(word)
    } else {
        0.0 / 0.0
    }
}

// ---- writing

// Four bytes from the byte at on.
pub fn put_bytes(out: &mut [u8], at: usize, a: u8, b: u8, c: u8, d: u8)
    requires { at + 4 ≤ length out.old }
    ensures { out.new ≡ sets out.old at (a ∷ b ∷ c ∷ d ∷ []) }
{
    put_first(out, at, &[a, b, c, d], 4);
}

// A u16's two bytes from the byte at on, the lower first.
pub fn put_half(out: &mut [u8], at: usize, v: usize)
    requires at_in_bounds { at + 2 ≤ length out.old }
    requires v_bound { v < 2 ^ 16 }
    ensures { out.new ≡ sets out.old at (half_bytes v) }
{
    put_first(out, at, &(v as u16).to_le_bytes(), 2);
}

// The word's four bytes from the byte at on, the lowest first.
pub fn put_word(out: &mut [u8], at: usize, v: u32)
    requires { at + 4 ≤ length out.old }
    ensures { out.new ≡ sets out.old at (word_bytes v) }
{
    put_first(out, at, &v.to_le_bytes(), 4);
}

// The float's four bytes from the byte at on.
pub fn put_float(out: &mut [u8], at: usize, x: f32)
    requires { at + 4 ≤ length out.old }
    ensures { out.new ≡ sets out.old at (float_bytes x) }
{
    put_word(out, at, bits(x));
}

// The first n bytes of s from the byte at on.
pub fn put_first(out: &mut [u8], at: usize, s: &[u8], n: usize)
    requires n_in_bounds { n ≤ length s.now }
    requires n_in_bounds_2 { at + n ≤ length out.old }
    ensures { out.new ≡ sets out.old at (take n s.now) }
{
    for k in 0..n {
        out[at + k] = s[k];
    }
}

// ---- reading

// The little-endian word that begins at the byte at.
pub fn word_from(b: &[u8], at: usize) -> u32
    requires { at + 4 ≤ length b.now }
    ensures { result ≡ word_from b.now at }
{
    u32::from_le_bytes([b[at], b[at + 1], b[at + 2], b[at + 3]])
}

// The float that begins at the byte at.
pub fn float_from(b: &[u8], at: usize) -> f32
    requires { at + 4 ≤ length b.now }
    ensures { result ≡ float_from b.now at }
{
    float_of(word_from(b, at))
}

// As many floats as `out` holds, from the i-th word on.
pub fn read_floats(bytes: &[u8], i: usize, out: &mut [f32])
    requires { 4 * (i + length out.old) ≤ length bytes.now }
    ensures { out.new ≡ floats_at (length out.old) bytes.now i }
{
    for k in 0..out.len() {
        out[k] = float_from(bytes, 4 * (i + k));
    }
}
