// The ring of a feed: its state, what is read of the ring and of the columns that are given, and how a column is stored.
#![tactic(auto)]

pub mod column; // column.rt: a column given to a feed

ghost use Rattle.std.specs.Prelude.{◌≡◌, cond, ◌+◌, ◌-◌, ◌*◌, ◌≤◌, ◌<◌, length};
ghost use Rattle.std.proofs.lemmas.List.Edits.{sets};
ghost use Rattle.samples.specs.Level.{nine_of};
ghost use Rattle.samples.specs.Map.{four_in};
ghost use Rattle.ring.specs.Ring.{slot_of, samples_fed};
ghost use Rattle.ring.specs.Lent.{Lent};

use grid::Levels;
use tables::{Set, Thresholds};

// What a feed goes by, and how many columns it has taken. Start makes it, and each column answers the next.
#[derive(Clone, Copy)]
pub struct State {
    pub set: Set,
    pub thresholds: Thresholds,
    pub rows: usize,
    pub cols: usize,
    pub octave: u8,
    pub position: usize,
}

// The place of a row of column n in the ring.
pub fn slot(n: usize, rows: usize, row: usize) -> usize
    requires { (rows ≤ 4096) × (row < rows) }
    ensures { (result ≡ slot_of rows n + row) × (row ≤ result) × (result + rows ≤ 5 * rows + row) }
{
    n % 5 * rows + row
}

// The samples at the nine places around the row's pixel of the column two before the given one, by rows.
pub fn nine_at<'a>(
    ring: &Levels<'a>,
    given: &Levels<'a>,
    rows: usize,
    n: usize,
    g: [f32; 4],
    row: usize,
) -> [[f32; 4]; 9]
    requires lent { Lent rows (four_in ring.now) (four_in given.now) }
    requires le_n { (6 ≤ n) × (n ≤ 4096) }
    requires le_row { (2 ≤ row) × (row + 2 < rows) }
    ensures { result ≡ nine_of (samples_fed (four_in ring.now) (four_in given.now) rows n g) row (n - 2) }
{
    let b = row - 1;
    let u = slot(n + 1, rows, b);
    let x = slot(n + 2, rows, b);
    let y = slot(n + 3, rows, b);
    let z = slot(n + 4, rows, b);
    nine::nine_by(ring, given, u, x, y, z, b, g)
}

// The column goes to the ring from the place from on.
fn copy(ring: &mut [f32], from: usize, column: &[f32])
    requires { from + length column.now ≤ length ring.old }
    ensures { ring.new ≡ sets ring.old from column.now }
{
    for i in 0..column.len() {
        ring[from + i] = column[i];
    }
}

// Where the column is taken, it goes to the ring from the place from on; else the ring stays as it was.
pub fn store(taken: bool, ring: &mut [f32], from: usize, column: &[f32])
    requires { from + length column.now ≤ length ring.old }
    ensures { ring.new ≡ cond taken (sets ring.old from column.now) ring.old }
{
    if taken {
        copy(ring, from, column);
    }
}
