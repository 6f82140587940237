// Numbers and records as text, each from a place of the buffer on; each answers the next place.
#![tactic(auto)]

ghost use Rattle.std.specs.Prelude.{◌≡◌, [], ◌∷◌, ◌++◌, ◌+◌, ◌*◌, ◌<◌, ◌≤◌, length, take, drop};
ghost use Rattle.record.specs.Layout.{spot_width};
ghost use Rattle.text.specs.Text.{line_width, hex_digit, hex_of, line_of, lines_in, decimal, found_line, refused_line, Wrote};

use record::SPOT_WIDTH;

// One byte.
fn push(out: &mut [u8], at: usize, byte: u8) -> usize
    requires { at < length out.old }
    ensures { Wrote out.old out.new at result (byte ∷ []) }
{
    out[at] = byte;
    at + 1
}

// A hex digit in lower case.
fn hex_digit(d: u8) -> u8
    requires { d < 16 }
    ensures { result ≡ hex_digit d }
{
    if d < 10 { b'0' + d } else { b'a' + (d - 10) }
}

// A byte as two hex digits, the high one first.
fn put_hex(out: &mut [u8], at: usize, byte: u8) -> usize
    requires { at + 2 ≤ length out.old }
    ensures { Wrote out.old out.new at result (hex_of (byte ∷ [])) }
{
    let high = hex_digit(byte / 16);
    let low = hex_digit(byte % 16);
    let next = push(out, at, high);
    push(out, next, low)
}

// The bytes of the record at place i, as a line.
fn put_line(out: &mut [u8], at: usize, records: &[u8], i: usize) -> usize
    requires line_width_in_bounds { at + line_width ≤ length out.old }
    requires spot_width_in_bounds { i * spot_width + spot_width ≤ length records.now }
    ensures { Wrote out.old out.new at result (line_of (take spot_width (drop (i * spot_width) records.now))) }
{
    let from = i * SPOT_WIDTH;
    let mut next = at;
    for byte in &records[from..from + SPOT_WIDTH] {
        next = put_hex(out, next, *byte);
    }
    push(out, next, b'\n')
}

// The first n records, a line for each.
pub fn put_lines(out: &mut [u8], at: usize, records: &[u8], n: usize) -> usize
    requires line_width_in_bounds { at + n * line_width ≤ length out.old }
    requires spot_width_in_bounds { n * spot_width ≤ length records.now }
    ensures wrote { Wrote out.old out.new at result (lines_in n records.now) }
    ensures value { result ≡ at + line_width * n }
{
    let mut next = at;
    for i in 0..n {
        next = put_line(out, next, records, i);
    }
    next
}

// The text as it stands.
fn put_text(out: &mut [u8], at: usize, text: &[u8]) -> usize
    requires { at + length text.now ≤ length out.old }
    ensures { Wrote out.old out.new at result text.now }
{
    let end = at + text.len();
    out[at..end].copy_from_slice(text);
    end
}

// The decimal digits of n.
fn put_decimal(out: &mut [u8], at: usize, n: usize) -> usize
    requires { at + 20 ≤ length out.old }
    ensures wrote { Wrote out.old out.new at result (decimal n) }
    ensures upper_bound { result ≤ at + 20 }
{
    let mut digits = [0u8; 20];
    let count = io::decimal(n as u64, &mut digits);
    put_text(out, at, &digits[..count])
}

// A line of a word and a number.
fn put_counted(out: &mut [u8], at: usize, word: &[u8], n: usize) -> usize
    requires { at + length word.now + 21 ≤ length out.old }
    ensures { Wrote out.old out.new at result (word.now ++ (decimal n ++ (10 ∷ []))) }
{
    let number = put_text(out, at, word);
    let end = put_decimal(out, number, n);
    push(out, end, b'\n')
}

// The line `found N`.
pub fn put_found(out: &mut [u8], at: usize, n: usize) -> usize
    requires { at + 27 ≤ length out.old }
    ensures { Wrote out.old out.new at result (found_line n) }
{
    put_counted(out, at, b"found ", n)
}

// The line `refused K`.
pub fn put_refused(out: &mut [u8], at: usize, number: usize) -> usize
    requires { at + 29 ≤ length out.old }
    ensures { Wrote out.old out.new at result (refused_line number) }
{
    put_counted(out, at, b"refused ", number)
}
