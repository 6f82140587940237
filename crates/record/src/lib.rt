// A spot's record: its values, its bytes, and when a record is readable. The layout stands here and nowhere else.
#![tactic(auto)]

ghost use Rattle.std.specs.Prelude.{◌≡◌, ◌+◌, ◌<◌, ◌≤◌, ◌^◌, length};
ghost use Rattle.std.proofs.lemmas.List.Edits.{sets};
ghost use Rattle.record.specs.Layout.{spot_width, old_width, floats4, old_bytes, record_bytes, put, record_with, record_from, old_from};
ghost use Rattle.record.specs.Readable.{finite_record, within, on_side, readable};

// How many bytes a record has.
pub const SPOT_WIDTH: usize = 48;

// How many it had before displacements were kept.
pub const OLD_WIDTH: usize = 40;

#[derive(Clone, Copy)]
pub struct Record {
    pub x: f32,
    pub y: f32,
    pub sigma: f32,
    pub peak: f32,
    pub s0: f32,
    pub s1: f32,
    pub s2: f32,
    pub s3: f32,
    pub key: u32,
    pub octave: u8,
    pub index: u8,
    pub polarity: u8,
    pub spare: u8,
    pub dx: f32,
    pub dy: f32,
}

// ---- writing

// Four floats, one after the other.
fn put_floats(out: &mut [u8], at: usize, a: f32, b: f32, c: f32, d: f32)
    requires { at + 16 ≤ length out.old }
    ensures { out.new ≡ sets out.old at (floats4 a b c d) }
{
    words::put_float(out, at, a);
    words::put_float(out, at + 4, b);
    words::put_float(out, at + 8, c);
    words::put_float(out, at + 12, d);
}

// The bytes of an old record, all but the displacement, from the byte at on.
pub fn put_old(out: &mut [u8], at: usize, r: Record)
    requires { at + old_width ≤ length out.old }
    ensures { out.new ≡ sets out.old at (old_bytes r) }
{
    put_floats(out, at, r.x, r.y, r.sigma, r.peak);
    put_floats(out, at + 16, r.s0, r.s1, r.s2, r.s3);
    words::put_word(out, at + 32, r.key);
    words::put_bytes(out, at + 36, r.octave, r.index, r.polarity, r.spare);
}

// The record's bytes from the byte at on.
pub fn put_record(out: &mut [u8], at: usize, r: Record)
    requires { at + spot_width ≤ length out.old }
    ensures { out.new ≡ sets out.old at (record_bytes r) }
{
    put_old(out, at, r);
    words::put_float(out, at + 40, r.dx);
    words::put_float(out, at + 44, r.dy);
}

// The record at place n, where the buffer has room for it whole.
pub fn put_at(out: &mut [u8], n: usize, r: Record)
    requires { n < 2 ^ 32 }
    ensures { out.new ≡ put out.old n r }
{
    let at = n * SPOT_WIDTH;
    if at + SPOT_WIDTH <= out.len() {
        put_record(out, at, r);
    }
}

// ---- reading

// The record whose first bytes begin at the byte at, with this displacement.
fn record_with(b: &[u8], at: usize, dx: f32, dy: f32) -> Record
    requires { at + old_width ≤ length b.now }
    ensures { result ≡ record_with b.now at dx dy }
{
    Record {
        x: words::float_from(b, at),
        y: words::float_from(b, at + 4),
        sigma: words::float_from(b, at + 8),
        peak: words::float_from(b, at + 12),
        s0: words::float_from(b, at + 16),
        s1: words::float_from(b, at + 20),
        s2: words::float_from(b, at + 24),
        s3: words::float_from(b, at + 28),
        key: words::word_from(b, at + 32),
        octave: b[at + 36],
        index: b[at + 37],
        polarity: b[at + 38],
        spare: b[at + 39],
        dx,
        dy,
    }
}

// The record that begins at the byte at.
pub fn record_from(b: &[u8], at: usize) -> Record
    requires { at + spot_width ≤ length b.now }
    ensures { result ≡ record_from b.now at }
{
    let dx = words::float_from(b, at + 40);
    let dy = words::float_from(b, at + 44);
    record_with(b, at, dx, dy)
}

// The old record that begins at the byte at, with a displacement of 0, which it does not tell.
pub fn old_from(b: &[u8], at: usize) -> Record
    requires { at + old_width ≤ length b.now }
    ensures { result ≡ old_from b.now at }
{
    record_with(b, at, 0.0, 0.0)
}

// ---- readable

// Whether each float but the displacements is finite.
fn is_finite_record(r: Record) -> bool
    ensures { result ≡ finite_record r }
{
    float::is_finite(r.x)
        & float::is_finite(r.y)
        & float::is_finite(r.sigma)
        & float::is_finite(r.peak)
        & float::is_finite(r.s0)
        & float::is_finite(r.s1)
        & float::is_finite(r.s2)
        & float::is_finite(r.s3)
}

// Whether x is 0 to last.
fn is_within(last: usize, x: f32) -> bool
    requires { last ≤ 4096 }
    ensures { result ≡ within last x }
{
    (0.0 <= x) & (x <= last as f32)
}

// Whether x is 0 to n - 1.
fn is_on_side(n: usize, x: f32) -> bool
    requires { n ≤ 4096 }
    ensures { result ≡ on_side n x }
{
    if n == 0 {
        is_within(0, x)
    } else {
        is_within(n - 1, x)
    }
}

// Whether the record is readable for a map of rows by cols.
pub fn is_readable(rows: usize, cols: usize, r: Record) -> bool
    requires rows_bound { rows ≤ 4096 }
    requires cols_bound { cols ≤ 4096 }
    ensures { result ≡ readable rows cols r }
{
    is_finite_record(r)
        & is_on_side(cols, r.x)
        & is_on_side(rows, r.y)
        & ((r.key as usize) < rows * cols)
        & (r.octave <= 5)
        & ((r.index == 1) | (r.index == 2))
        & (r.polarity <= 1)
        & (r.spare == 0)
        & moves::is_nearby(r.dx)
        & moves::is_nearby(r.dy)
}
