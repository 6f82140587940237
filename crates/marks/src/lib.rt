// The marks of a block of up to 256 rows and 4,096 columns, a bit for each pixel: eight rows of a column to a byte.
#![tactic(auto)]

ghost use Rattle.std.specs.Prelude.{◌≡◌, ℕ, ◌+◌, ◌*◌, ◌/◌, ◌%◌, ◌^◌, ◌≤◌, ◌<◌, eqb, length, get_or};
ghost use Rattle.marks.specs.Marks.{mark_at, Put};

// Four digits as a number.
fn nibble(a: u8, b: u8, c: u8, d: u8) -> u8
    requires { (a ≤ 1) × (b ≤ 1) × (c ≤ 1) × (d ≤ 1) }
    ensures { (result ≡ a + 2 * b + 4 * c + 8 * d) × (result ≤ 15) }
{
    a + 2 * b + 4 * c + 8 * d
}

// Eight entries as the digits of a byte.
fn byte_of(keep: &[u8; 256], i: usize) -> u8
    requires i_bound { i ≤ 248 }
    requires by_index { (j : ℕ) → j < 256 → get_or keep.now j 0 ≤ 1 }
    ensures { (j : ℕ) → j < 8 → result / 2 ^ j % 2 ≡ get_or keep.now (i + j) 0 }
{
    let low = nibble(keep[i], keep[i + 1], keep[i + 2], keep[i + 3]);
    let high = nibble(keep[i + 4], keep[i + 5], keep[i + 6], keep[i + 7]);
    low + 16 * high
}

// The marks of a column.
pub fn put_line(col: usize, keep: &[u8; 256], marks: &mut [u8; 131072])
    requires col_bound { col < 4096 }
    requires by_index { (j : ℕ) → j < 256 → get_or keep.now j 0 ≤ 1 }
    ensures { Put keep.now col marks.old marks.new }
{
    for i in 0..32 {
        marks[i * 4096 + col] = byte_of(keep, 8 * i);
    }
}

// The pixel in the i-th row of the block has a mark.
pub fn is_marked(marks: &[u8; 131072], i: usize, col: usize) -> bool
    requires { (i < 256) × (col < 4096) }
    ensures { result ≡ eqb (mark_at marks.now i col) 1 }
{
    let b = marks[i / 8 * 4096 + col];
    (b >> (i % 8)) % 2 == 1
}
