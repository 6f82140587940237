// A tile's records, sized and numbered: they stand at the end of the place that they need, and each is read before its bytes are written.
ghost use Rattle.std.specs.Prelude.{◌≡◌, ◌+◌, ◌*◌};
ghost use Rattle.std.proofs.lemmas.List.Edits.{sets};
ghost use Rattle.record.specs.Layout.{record_from};
ghost use Rattle.tile.specs.Numbered.{numbered, numbered_bytes, tile_bytes};
ghost use Rattle.tile.specs.Tile.{records_in, Sizes, Stand};

use crate::{MORE, NUMBERED_WIDTH};
use record::SPOT_WIDTH;
use tables::Set;
use words::put_half;

// The record that begins at the byte from goes, sized and with the tile's numbers in front, to the bytes from to on.
fn place_record(set: Set, i: usize, j: usize, out: &mut [u8], from: usize, to: usize)
    requires { Sizes i j out.old from to }
    ensures { out.new ≡ sets out.old to (numbered_bytes set (numbered i j (record_from out.old from))) }
{
    let r = record::record_from(out, from);
    put_half(out, to, i);
    put_half(out, to + 2, j);
    sized::put_sized(out, to + 4, set, r);
}

// The n records that stand at the end of their place go, sized and with the tile's numbers in front, to the bytes from base on.
pub fn place_all(set: Set, i: usize, j: usize, out: &mut [u8], base: usize, n: usize)
    requires { Stand i j out.old base n }
    ensures { out.new ≡ sets out.old base (tile_bytes set i j (records_in out.old (base + 16 * n) n)) }
{
    for k in 0..n {
        place_record(
            set,
            i,
            j,
            out,
            base + MORE * n + SPOT_WIDTH * k,
            base + NUMBERED_WIDTH * k,
        );
    }
}
