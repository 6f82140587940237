// A feed's state, read from bytes and written.
ghost use Rattle.std.specs.Prelude.{◌≡◌, ◌+◌, ◌≤◌, ◌<◌, ◌^◌, length};
ghost use Rattle.std.proofs.lemmas.List.Edits.{sets};
ghost use Rattle.words.specs.Words.{word_bytes, word_from};
ghost use Rattle.states.specs.Bytes.{state_of, thresholds_bytes, numbers_bytes, opened_bytes};

use ring::State;
use tables::Thresholds;
use words::{float_from, put_bytes, put_first, put_float, put_word, word_from};

// The thresholds in the bytes.
fn thresholds_of(b: &[u8]) -> Thresholds
    requires { 564 ≤ length b.now }
    ensures { result ≡ (state_of b.now).thresholds }
{
    Thresholds {
        peak: float_from(b, 528),
        sigma: float_from(b, 532),
        ratio: float_from(b, 536),
        low: float_from(b, 540),
        high: float_from(b, 544),
    }
}

// The state in the bytes.
pub fn state_of(b: &[u8]) -> State
    requires { 564 ≤ length b.now }
    ensures { result ≡ state_of b.now }
{
    let set = tables::set_of(b);
    let thresholds = thresholds_of(b);
    State {
        set,
        thresholds,
        rows: word_from(b, 548) as usize,
        cols: word_from(b, 552) as usize,
        octave: b[560],
        position: word_from(b, 556) as usize,
    }
}

// The position moved by one.
pub fn advance(state: &mut [u8])
    requires in_bounds { 564 ≤ length state.old }
    requires state_bound { word_from state.old 556 + 1 < 2 ^ 32 }
    ensures { state.new ≡ sets state.old 556 (word_bytes (word_from state.old 556 + 1)) }
{
    let n = word_from(state, 556);
    put_word(state, 556, n + 1);
}

// The thresholds at their places.
fn put_thresholds(th: Thresholds, state: &mut [u8])
    requires { 564 ≤ length state.old }
    ensures { state.new ≡ sets state.old 528 (thresholds_bytes th) }
{
    put_float(state, 528, th.peak);
    put_float(state, 532, th.sigma);
    put_float(state, 536, th.ratio);
    put_float(state, 540, th.low);
    put_float(state, 544, th.high);
}

// Rows, cols, a position of 0 and the octave at theirs.
fn put_numbers(rows: u32, cols: u32, octave: u8, state: &mut [u8])
    requires { 564 ≤ length state.old }
    ensures { state.new ≡ sets state.old 548 (numbers_bytes rows cols octave) }
{
    put_word(state, 548, rows);
    put_word(state, 552, cols);
    put_word(state, 556, 0);
    put_bytes(state, 560, octave, 0, 0, 0);
}

// The state before the first column, at the buffer's start.
pub fn write_state(
    set: &[u8],
    th: Thresholds,
    rows: usize,
    cols: usize,
    octave: usize,
    state: &mut [u8],
)
    requires set_len { (length set.now ≡ 528) × (564 ≤ length state.old) }
    requires rows_bound { (rows ≤ 4096) × (cols ≤ 4096) }
    requires octave_bound { octave ≤ 5 }
    ensures { state.new ≡ sets state.old 0 (opened_bytes set.now th rows cols octave) }
{
    put_first(state, 0, set, 528);
    put_thresholds(th, state);
    put_numbers(rows as u32, cols as u32, octave as u8, state);
}
