// What the list program reads of its input: its checks, and the parts of a tile that passes them.
#![tactic(auto)]

ghost use Rattle.std.specs.Prelude.{Ok, ◌≡◌, ◌+◌, ◌*◌, ◌<◌, ◌≤◌, length};
ghost use Rattle.tables.specs.Refusal.{first_of};
ghost use Rattle.words.specs.Words.{word_from};
ghost use Rattle.input.specs.Input.{set_from, thresholds_from, area_from, level_array, list_checks};

use tables::{Refusal, Set, Thresholds};

// The word at the byte at, as a count.
pub fn count_from(input: &[u8], at: usize) -> usize
    requires { at + 4 ≤ length input.now }
    ensures { result ≡ word_from input.now at }
{
    words::word_from(input, at) as usize
}

// How long the input of a tile is: its header, and four levels.
fn whole_length(rows: usize, cols: usize) -> usize
    requires rows_bound { rows ≤ 60 }
    requires cols_bound { cols ≤ 60 }
    ensures { result ≡ 560 + 16 * (rows * cols) }
{
    560 + 16 * (rows * cols)
}

// Of the input's own checks, in their order, the first that holds.
pub fn checked(input: &[u8]) -> Result<(), Refusal>
    ensures { result ≡ first_of (list_checks input.now) }
{
    if input.len() < 560 {
        return Err(Refusal::Level);
    }
    let rows = count_from(input, 548);
    if 60 < rows {
        return Err(Refusal::Size);
    }
    let cols = count_from(input, 552);
    if 60 < cols {
        return Err(Refusal::Size);
    }
    if input.len() != whole_length(rows, cols) {
        return Err(Refusal::Level);
    }
    Ok(())
}

// The set in the first 528 bytes, that of zeros where it is refused.
pub fn set_from(input: &[u8]) -> Set
    requires { 528 ≤ length input.now }
    ensures { result ≡ set_from input.now }
{
    tables::read_or_blank(&input[..528])
}

// The five thresholds.
pub fn thresholds_from(input: &[u8]) -> Thresholds
    requires { 548 ≤ length input.now }
    ensures { result ≡ thresholds_from input.now }
{
    Thresholds {
        peak: words::float_from(input, 528),
        sigma: words::float_from(input, 532),
        ratio: words::float_from(input, 536),
        low: words::float_from(input, 540),
        high: words::float_from(input, 544),
    }
}

// The pixels of a level.
pub fn area_from(input: &[u8]) -> usize
    requires { first_of (list_checks input.now) ≡ Ok tt }
    ensures { (result ≡ area_from input.now) × (result ≤ 3600) }
{
    let rows = count_from(input, 548);
    let cols = count_from(input, 552);
    rows * cols
}

// Level k, at the start of an array of zeros.
pub fn level_from(input: &[u8], k: usize) -> [f32; 3600]
    requires input_value { first_of (list_checks input.now) ≡ Ok tt }
    requires k_bound { k < 4 }
    ensures { result ≡ level_array input.now k }
{
    let n = area_from(input);
    let mut floats = [0.0f32; 3600];
    words::read_floats(input, 140 + k * n, &mut floats[..n]);
    floats
}
