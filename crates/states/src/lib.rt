// The feed over bytes: its state lies in a lent buffer, which any language can hold, and any bytes at all make some state.
#![tactic(auto)]

mod bytes; // bytes.rt: the state read and written

ghost use Rattle.std.specs.Prelude.{◌≡◌, length};
ghost use Rattle.samples.specs.Four.{four_of};
ghost use Rattle.states.specs.Bytes.{start_left, start_bytes, column_left, column_bytes};

use tables::refusals::value_of;
use tables::{Refusal, Thresholds};

// Begins a feed, and writes its state to the buffer. Answers 0, or the refusal's number, with the buffer as it was.
// Stays: C takes the answer as a number, and passes the state as bytes and each level as a pointer.
pub fn start<'a>(
    set: &'a [u8],
    thresholds: Thresholds,
    rows: usize,
    cols: usize,
    octave: usize,
    r0: &'a [f32],
    r1: &'a [f32],
    r2: &'a [f32],
    r3: &'a [f32],
    state: &mut [u8],
) -> u32
    ensures { start_left result state.new
        ≡ start_bytes set.now thresholds rows cols octave (length r0.now) (length r1.now) (length r2.now) (length r3.now) state.old }
{
    let tables = tables::read_or_blank(set);
    match feed::feed_start(tables, thresholds, rows, cols, octave, r0, r1, r2, r3) {
        Err(unstarted) => u32::from(unstarted.why),
        Ok(_) => {
            if state.len() < 564 {
                return u32::from(Refusal::Room);
            }
            bytes::write_state(set, thresholds, rows, cols, octave, state);
            0
        }
    }
}

// Gives the next column to the feed whose state lies in the buffer. Answers 0, with the count in value and the position moved by one, or the refusal's number,
// with 0 in value and all else as it was.
// Stays: C takes the answer as a number and its value through a pointer, and passes the state as bytes and each level as a pointer.
pub fn column<'a>(
    state: &mut [u8],
    c0: &'a [f32],
    c1: &'a [f32],
    c2: &'a [f32],
    c3: &'a [f32],
    r0: &mut [f32],
    r1: &mut [f32],
    r2: &mut [f32],
    r3: &mut [f32],
    out: &mut [u8],
    value: &mut u64,
) -> u32
    ensures { column_left result value.new state.new (four_of r0.new r1.new r2.new r3.new) out.new
        ≡ column_bytes state.old (four_of c0.now c1.now c2.now c3.now)
        (four_of r0.old r1.old r2.old r3.old) out.old }
{
    if state.len() < 564 {
        *value = 0;
        return u32::from(Refusal::Past);
    }
    let mut s = bytes::state_of(state);
    match feed::feed_column(&mut s, c0, c1, c2, c3, r0, r1, r2, r3, out) {
        Ok(n) => {
            bytes::advance(state);
            *value = n as u64;
            0
        }
        Err(why) => {
            *value = value_of(why);
            u32::from(why)
        }
    }
}
