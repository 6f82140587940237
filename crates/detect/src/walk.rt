// The walk over the judged pixels of four levels, which gives the due records to a taker.
ghost use Rattle.std.specs.Prelude.{◌≡◌, ℕ, Bool, List, false, [], ◌+◌, ◌-◌, ◌<◌, ◌≤◌, ◌^◌};
ghost use Rattle.record.specs.declared.Record.{Record};
ghost use Rattle.pixel.specs.Listed.{both_in};
ghost use Rattle.samples.specs.Level.{Within};
ghost use Rattle.samples.specs.Map.{maps_in};
ghost use Rattle.detect.specs.Due.{pixel_due, row_due, rows_due};
ghost use Rattle.detect.specs.Taker.{TakerLaws};
ghost use Rattle.sweep.specs.Ruled.{Block};

use marks::is_marked;
use nine::nine_at;
use pixel::Listing;
use pixel::judge::listing;
use samples::map::Map;
use sweep::block::refresh;

// What takes the due records, pixel by pixel.
pub trait Taker {
    // What a state is after some records more.
    ghost took: { Self → List Record → Self → Type 0 };

    // For how many records more it has room.
    ghost room: { Self → ℕ };

    // Whether it stays as it is, whatever it is given.
    ghost full: { Self → Bool };

    ghost laws: { TakerLaws took room full };

    fn take(&mut self, both: Listing)
        requires { 2 ≤ room self.old }
        ensures { took self.old (both_in both) self.new };

    fn is_full(&self) -> bool
        ensures { result ≡ full self.now };
}

// A pixel's listing is taken.
fn judged<T: Taker>(map: &Map, row: usize, col: usize, to: &mut T)
    requires within { Within 4 map.now.frame row col }
    requires room { 2 ≤ T.room to.old }
    ensures { T.took to.old (pixel_due (maps_in map.now) row col) to.new }
{
    let nine = nine_at(map, row, col);
    to.take(listing(map.set, map.thresholds, map.frame, &nine, row, col));
}

// The same of a pixel told whether it is marked. Most pixels are not.
fn pixel<T: Taker>(map: &Map, row: usize, col: usize, marked: bool, to: &mut T)
    requires within { Within 4 map.now.frame row col }
    requires col_value { marked ≡ false → pixel_due (maps_in map.now) row col ≡ [] }
    requires room { 2 ≤ T.room to.old }
    ensures { T.took to.old (pixel_due (maps_in map.now) row col) to.new }
{
    if marked {
        judged(map, row, col, to);
    }
}

// What the pixels of the judged row j list is taken, until the taker is full.
fn row<T: Taker>(map: &Map, j: usize, marks: &[u8; 131072], to: &mut T)
    requires j_bound { j + 8 < map.now.frame.rows }
    requires block { Block (maps_in map.now) j marks.now }
    requires room { 8192 ≤ T.room to.old }
    ensures { T.took to.old (row_due (maps_in map.now) (j + 4) (map.now.frame.cols - 8)) to.new }
{
    let cols = map.frame.cols.saturating_sub(8);
    for k in 0..cols {
        if to.is_full() {
            return;
        }
        pixel(map, j + 4, k + 4, is_marked(marks, j % 254, k + 4), to);
    }
}

// What the first n judged rows list is taken, until the taker is full.
pub fn walk<T: Taker>(map: &Map, n: usize, to: &mut T)
    requires n_bound { n ≤ map.now.frame.rows - 8 }
    requires room { 2 ^ 25 ≤ T.room to.old }
    ensures { T.took to.old (rows_due (maps_in map.now) n) to.new }
{
    let mut marks = [0u8; 131072];
    for j in 0..n {
        if to.is_full() {
            return;
        }
        refresh(map, j, &mut marks);
        row(map, j, &marks, to);
    }
}
