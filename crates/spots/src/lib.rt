// What the judged column lists.
#![tactic(auto)]

ghost use Rattle.std.specs.Prelude.{◌≡◌, cond, [], ◌+◌, ◌-◌, ◌*◌, ◌≤◌, ◌<◌, ◌^◌, leb, eqb, length};
ghost use Rattle.record.specs.Layout.{spot_width, Laid};
ghost use Rattle.ring.specs.Ring.{judges};
ghost use Rattle.ring.specs.Lent.{height_of};
ghost use Rattle.ring.specs.Given.{pixel_in, column_in, RuledIn};
ghost use Rattle.spots.specs.Marked.{marked_of};

use pixel::Frame;
use record::SPOT_WIDTH;
use ring::State;
use ring::column::Column;

// The bytes of two records, as many as a pixel lists at most.
const TWO_WIDE: usize = 2 * SPOT_WIDTH;

// A column is judged when the given one is two further.
fn is_judging(s: State) -> bool
    requires { s.position ≤ 4096 }
    ensures { result ≡ judges s }
{
    (6 <= s.position) & (s.position + 2 < s.cols)
}

// How many pixels of the judged column are judged: none where no column is.
pub fn height(s: State) -> usize
    requires { s.position ≤ 4096 }
    ensures { result ≡ height_of s }
{
    if !is_judging(s) {
        return 0;
    }
    if s.rows < 8 {
        return 0;
    }
    s.rows - 8
}

// What a pixel of the judged column lists goes to place n on; answers the next place.
fn pixel_spots(column: &Column, row: usize, out: &mut [u8], n: usize) -> usize
    requires le_position { 6 ≤ column.now.state.position }
    requires n_bound { n + 2 ≤ 2 ^ 32 }
    requires le_row { (2 ≤ row) × (row + 2 < column.now.state.rows) }
    ensures { Laid out.old out.new n result (pixel_in column.now row) }
{
    let s = &column.state;
    let frame = Frame {
        rows: s.rows,
        cols: s.cols,
        octave: s.octave,
    };
    let g = s.set.sigmas;
    let nine = ring::nine_at(&column.ring, &column.given, s.rows, s.position, g, row);
    listing::lay_listing(
        s.set,
        s.thresholds,
        frame,
        &nine,
        row,
        s.position - 2,
        out,
        n,
    )
}

// The same of a pixel told by its mark. Most pixels have none.
fn marked_spots(column: &Column, row: usize, mark: u8, out: &mut [u8], n: usize) -> usize
    requires le_position { 6 ≤ column.now.state.position }
    requires n_bound { n + 2 ≤ 2 ^ 32 }
    requires le_row { (2 ≤ row) × (row + 2 < column.now.state.rows) }
    requires position_value { mark ≡ 0 → pixel_in column.now row ≡ [] }
    ensures { Laid out.old out.new n result (pixel_in column.now row) }
{
    if mark == 0 {
        return n;
    }
    pixel_spots(column, row, out, n)
}

// What the judged column lists, from the output's start on; answers how many records.
pub fn column_spots(column: &Column, n: usize, marks: &[u8; 4096], out: &mut [u8]) -> usize
    requires n_value { n ≡ height_of column.now.state }
    requires ruled { RuledIn column.now n marks.now }
    ensures { Laid out.old out.new 0 result (column_in column.now n) }
{
    let mut m: usize = 0;
    for i in 0..n {
        m = marked_spots(column, i + 4, marks[i], out, m);
    }
    m
}

// The same where the records fit; nothing is laid where they do not.
pub fn lay_spots(fits: bool, column: &Column, n: usize, marks: &[u8; 4096], out: &mut [u8]) -> usize
    requires n_value { n ≡ height_of column.now.state }
    requires ruled { RuledIn column.now n marks.now }
    ensures { Laid out.old out.new 0 result (cond fits (column_in column.now n) []) }
{
    if !fits {
        return 0;
    }
    column_spots(column, n, marks, out)
}

// How many pixels are marked.
fn marked(n: usize, marks: &[u8; 4096]) -> usize
    requires { n ≤ 4096 }
    ensures { (result ≡ marked_of marks.now n) × (result ≤ n) }
{
    marks[..n].iter().filter(|mark| **mark != 0).count()
}

// How many records the call lists: they are judged, and written nowhere.
fn count(column: &Column, n: usize, marks: &[u8; 4096]) -> usize
    requires n_value { n ≡ height_of column.now.state }
    requires ruled { RuledIn column.now n marks.now }
    ensures { result ≡ length (column_in column.now n) }
{
    let mut nowhere = [0u8; 1];
    column_spots(column, n, marks, &mut nowhere)
}

// All records of the call fit in room bytes. Where there is room for two at each marked pixel none is judged for it.
pub fn is_roomy(column: &Column, n: usize, marks: &[u8; 4096], room: usize) -> bool
    requires n_value { n ≡ height_of column.now.state }
    requires ruled { RuledIn column.now n marks.now }
    ensures { result ≡ leb (length (column_in column.now n) * spot_width) room }
{
    if marked(n, marks) * TWO_WIDE <= room {
        return true;
    }
    count(column, n, marks) * SPOT_WIDTH <= room
}
