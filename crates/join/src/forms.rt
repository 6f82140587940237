// How the records of a list lie: an old list's, from before displacements were kept, or a present one's. Nothing else in the join tells them apart.
ghost use Rattle.std.specs.Prelude.{ℕ, ◌+◌, ◌*◌, ◌/◌, ◌%◌, ◌<◌, ◌≤◌, Bool, true, false, ◌≡◌, refl, eqb, ltb, length};
ghost use Rattle.std.proofs.lemmas.List.Edits.{sets};
ghost use Rattle.record.specs.Layout.{spot_width, old_width};
ghost use Rattle.sized.specs.Sized.{sized_width, old_sized_width, Placed};
ghost use Rattle.join.specs.Forms.{width_of, sized_width_of, record_in, sized_in};

use record::{OLD_WIDTH, Record, SPOT_WIDTH};
use sized::{OLD_SIZED_WIDTH, SIZED_WIDTH};
use tables::Set;

pub trait Form {
    // Whether it is an old list's.
    ghost is_old: { Bool };

    ghost WIDTH: { ℕ };

    ghost SIZED_WIDTH: { ℕ };

    // How many bytes a record has.
    const WIDTH: usize;

    // And a sized record.
    const SIZED_WIDTH: usize;

    // The i-th record of a list.
    fn record_in(list: &[u8], i: usize) -> Record
        requires { i < length list.now / width_of is_old }
        ensures { result ≡ record_in is_old list.now i };

    // The record as the i-th sized one.
    fn put_in(out: &mut [u8], i: usize, set: Set, r: Record)
        requires old_in_bounds { i * sized_width_of is_old + sized_width_of is_old ≤ length out.old }
        requires placed { Placed r }
        ensures { out.new ≡ sets out.old (i * sized_width_of is_old) (sized_in is_old set r) };

    // What each form must prove of its widths.
    ghost width_is: { WIDTH ≡ width_of is_old };

    ghost sized_width_is: { SIZED_WIDTH ≡ sized_width_of is_old };
}

// An old list's.
pub struct Old;

impl Form for Old {
    ghost is_old = { true };

    ghost WIDTH = { old_width };

    ghost SIZED_WIDTH = { old_sized_width };

    ghost width_is = { refl };

    ghost sized_width_is = { refl };

    const WIDTH: usize = OLD_WIDTH;

    const SIZED_WIDTH: usize = OLD_SIZED_WIDTH;

    fn record_in(list: &[u8], i: usize) -> Record {
        record::old_from(list, i * OLD_WIDTH)
    }

    fn put_in(out: &mut [u8], i: usize, set: Set, r: Record) {
        sized::put_old_sized(out, i * OLD_SIZED_WIDTH, set, r);
    }
}

// A present list's.
pub struct Present;

impl Form for Present {
    ghost is_old = { false };

    ghost WIDTH = { spot_width };

    ghost SIZED_WIDTH = { sized_width };

    ghost width_is = { refl };

    ghost sized_width_is = { refl };

    const WIDTH: usize = SPOT_WIDTH;

    const SIZED_WIDTH: usize = SIZED_WIDTH;

    fn record_in(list: &[u8], i: usize) -> Record {
        record::record_from(list, i * SPOT_WIDTH)
    }

    fn put_in(out: &mut [u8], i: usize, set: Set, r: Record) {
        sized::put_sized(out, i * SIZED_WIDTH, set, r);
    }
}

// How many whole records so many bytes hold.
pub fn count_of<F: Form>(bytes: usize) -> usize
    ensures { result ≡ bytes / width_of F.is_old }
{
    bytes / F::WIDTH
}

// Whether so many bytes are whole records.
pub fn is_whole<F: Form>(bytes: usize) -> bool
    ensures { result ≡ eqb (bytes % width_of F.is_old) 0 }
{
    bytes % F::WIDTH == 0
}

// Whether a buffer of that room is too short for so many sized records.
pub fn is_short<F: Form>(count: usize, room: usize) -> bool
    ensures { result ≡ ltb room (count * sized_width_of F.is_old) }
{
    room / F::SIZED_WIDTH < count
}
