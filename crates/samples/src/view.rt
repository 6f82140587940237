// A level's view: the caller's pixels and the row count, with thin readers only. Under it stand the same readers over a slice and numbers, which answer
// for any numbers at all.
ghost use Rattle.std.specs.Prelude.{◌≡◌, ◌+◌, ◌-◌, ◌*◌, min, get_or};
ghost use Rattle.std.specs.Float.{nan};
ghost use Rattle.grid.specs.Grid.{pixel_at};
ghost use Rattle.samples.specs.Level.{sample_at};

// A level's pixels, by columns, and how many rows it has.
#[derive(Clone, Copy)]
pub struct LevelView<'a> {
    pixels: &'a [f32],
    rows: usize,
}

// The place of (row, col) in a level of n floats; n where it has none.
fn place_of(n: usize, rows: usize, row: usize, col: usize) -> usize
    ensures { result ≡ min n (col * rows + row) }
{
    if n <= row {
        return n;
    }
    if rows == 0 {
        return row;
    }
    if (n - row) / rows < col {
        return n;
    }
    col * rows + row
}

// The float that stands d places after (row, col); NaN where there is none.
fn float_after(level: &[f32], rows: usize, row: usize, col: usize, d: usize) -> f32
    ensures { result ≡ get_or level.now (col * rows + row + d) nan }
{
    let p = place_of(level.len(), rows, row, col);
    if level.len() - p <= d {
        return 0.0 / 0.0;
    }
    level[p + d]
}

// A level's pixel at (row, col); NaN where it has none.
pub fn pixel_at(level: &[f32], rows: usize, row: usize, col: usize) -> f32
    ensures { result ≡ pixel_at level.now rows row col }
{
    float_after(level, rows, row, col, 0)
}

// The row or col before i; the first has none before it, and stands for it.
fn previous(i: usize) -> usize
    ensures { result ≡ i - 1 }
{
    if i == 0 {
        return 0;
    }
    i - 1
}

// A level's sample at (row, col).
pub fn sample_at(level: &[f32], rows: usize, row: usize, col: usize, sigma: f32) -> f32
    ensures { result ≡ sample_at level.now rows row col sigma }
{
    let left = pixel_at(level, rows, row, previous(col));
    let right = float_after(level, rows, row, col, rows);
    let up = pixel_at(level, rows, previous(row), col);
    let down = float_after(level, rows, row, col, 1);
    let centre = pixel_at(level, rows, row, col);
    (left + right + up + down - 4.0 * centre) * (sigma * sigma)
}

// The view of these pixels.
pub fn view_of<'a>(pixels: &'a [f32], rows: usize) -> LevelView<'a>
    ensures { (result.pixels ≡ pixels.entry) × (result.rows ≡ rows) }
{
    LevelView { pixels, rows }
}

// A view's pixel at (row, col).
pub fn pixel_in<'a>(view: LevelView<'a>, row: usize, col: usize) -> f32
    ensures { result ≡ pixel_at view.entry.pixels.now view.entry.rows row col }
{
    pixel_at(view.pixels, view.rows, row, col)
}

// A view's sample at (row, col).
pub fn response_in<'a>(view: LevelView<'a>, row: usize, col: usize, sigma: f32) -> f32
    ensures { result ≡ sample_at view.entry.pixels.now view.entry.rows row col sigma }
{
    sample_at(view.pixels, view.rows, row, col, sigma)
}

// A sample by way of a view: who asks for it needs none.
pub fn response_of(level: &[f32], rows: usize, row: usize, col: usize, sigma: f32) -> f32
    ensures { result ≡ sample_at level.now rows row col sigma }
{
    response_in(view_of(level, rows), row, col, sigma)
}
