// A spot's size and home pixel, and its sized record: its own bytes, then these.
#![tactic(auto)]

ghost use Rattle.std.specs.Prelude.{◌≡◌, ◌+◌, ◌<◌, ◌≤◌, ◌^◌, length};
ghost use Rattle.std.proofs.lemmas.List.Edits.{sets};
ghost use Rattle.sized.specs.Sized.{sized_width, old_sized_width, given_sigma, accepted_of, missing_of, tail_bytes, home_of, size_of, sized_bytes, old_sized_bytes, Placed};

use record::{OLD_WIDTH, Record, SPOT_WIDTH};
use tables::{Missing, Set};

// How many bytes a sized record has: the spot record's, and twelve more.
pub const SIZED_WIDTH: usize = 60;

// How many an old one has.
pub const OLD_SIZED_WIDTH: usize = 52;

// A pixel by its row and col.
#[derive(Clone, Copy)]
pub struct Home {
    pub row: usize,
    pub col: usize,
}

// The corrected sigma, +0.0 where no size is given.
fn given_sigma(size: Result<f32, Missing>) -> f32
    ensures { result ≡ given_sigma size }
{
    size.unwrap_or(0.0)
}

// 1 where a size is given, else 0.
fn accepted_of(size: Result<f32, Missing>) -> u8
    ensures { result ≡ accepted_of size }
{
    match size {
        Ok(_) => 1,
        Err(_) => 0,
    }
}

// Why the size is missing, 1 or 2; 0 where it is given.
fn missing_of(size: Result<f32, Missing>) -> u8
    ensures { result ≡ missing_of size }
{
    match size {
        Ok(_) => 0,
        Err(why) => u8::from(why),
    }
}

// The size that a record's own samples, sigma and polarity give.
fn size_of(set: Set, r: Record) -> Result<f32, Missing>
    ensures { result ≡ size_of set r }
{
    let samples = [r.s0, r.s1, r.s2, r.s3];
    size::anchor::corrected_sigma_from_anchor(set, samples, r.sigma, r.polarity == 1)
}

fn as_usize(v: u32) -> usize
    ensures { result ≡ v }
{
    v as usize
}

// The home pixel: the one nearest to the record's y and x, a half going to the larger number.
fn home_of(r: Record) -> Home
    ensures { result ≡ home_of r }
{
    Home {
        row: as_usize(whole::nearest(r.y)),
        col: as_usize(whole::nearest(r.x)),
    }
}

// What follows a record of this size and home, from the byte at on.
fn put_tail(out: &mut [u8], at: usize, size: Result<f32, Missing>, home: Home)
    requires at_in_bounds { at + 12 ≤ length out.old }
    requires row_bound { (home.row < 2 ^ 16) × (home.col < 2 ^ 16) }
    ensures { out.new ≡ sets out.old at (tail_bytes size home) }
{
    words::put_float(out, at, given_sigma(size));
    words::put_half(out, at + 4, home.row);
    words::put_half(out, at + 6, home.col);
    words::put_bytes(out, at + 8, accepted_of(size), missing_of(size), 0, 0);
}

// A sized record's bytes from the byte at on.
pub fn put_sized(out: &mut [u8], at: usize, set: Set, r: Record)
    requires sized_width_in_bounds { at + sized_width ≤ length out.old }
    requires placed { Placed r }
    ensures { out.new ≡ sets out.old at (sized_bytes set r) }
{
    record::put_record(out, at, r);
    let size = size_of(set, r);
    let home = home_of(r);
    put_tail(out, at + SPOT_WIDTH, size, home);
}

// An old sized record's bytes from the byte at on.
pub fn put_old_sized(out: &mut [u8], at: usize, set: Set, r: Record)
    requires old_sized_width_in_bounds { at + old_sized_width ≤ length out.old }
    requires placed { Placed r }
    ensures { out.new ≡ sets out.old at (old_sized_bytes set r) }
{
    record::put_old(out, at, r);
    let size = size_of(set, r);
    let home = home_of(r);
    put_tail(out, at + OLD_WIDTH, size, home);
}
