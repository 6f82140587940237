// What a pixel lists, laid into a buffer.
#![tactic(auto)]

ghost use Rattle.std.specs.Prelude.{◌+◌, ◌≤◌, ◌<◌, ◌^◌};
ghost use Rattle.record.specs.Layout.{Laid};
ghost use Rattle.pixel.specs.Listed.{listed, both_in, both_listed};

use pixel::judge::listing;
use pixel::{Frame, Listing};
use record::Record;
use tables::{Set, Thresholds};

// What a verdict lists goes to place n; answers the next place.
fn emit(out: &mut [u8], n: usize, v: Option<Record>) -> usize
    requires { n < 2 ^ 32 }
    ensures { Laid out.old out.new n result (listed v) × (result ≤ n + 1) }
{
    match v {
        Some(r) => {
            record::put_at(out, n, r);
            n + 1
        }
        None => n,
    }
}

// What a pixel lists goes to place n on: the minimum before the maximum. Answers the next place.
pub fn lay_both(out: &mut [u8], n: usize, both: Listing) -> usize
    requires { n + 2 ≤ 2 ^ 32 }
    ensures { Laid out.old out.new n result (both_in both) }
{
    let low = both.low;
    let high = both.high;
    let m = emit(out, n, low);
    emit(out, m, high)
}

// The same, from the samples at the pixel's nine places.
pub fn lay_listing(
    set: Set,
    th: Thresholds,
    f: Frame,
    nine: &[[f32; 4]; 9],
    row: usize,
    col: usize,
    out: &mut [u8],
    n: usize,
) -> usize
    requires row_bound { (row ≤ 4096) × (col ≤ 4096) }
    requires rows_bound { (f.rows ≤ 4096) × (f.cols ≤ 4096) }
    requires n_bound { n + 2 ≤ 2 ^ 32 }
    ensures { Laid out.old out.new n result (both_listed set th f nine.now row col) }
{
    lay_both(out, n, listing(set, th, f, nine, row, col))
}
