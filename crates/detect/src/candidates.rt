// Detection over four levels: the records that the walk over the judged pixels gives are laid into a buffer.
ghost use Rattle.std.specs.Prelude.{◌≡◌, false, ◌-◌, ◌^◌};
ghost use Rattle.record.specs.Layout.{Laid};
ghost use Rattle.samples.specs.Map.{maps_in};
ghost use Rattle.detect.specs.Due.{due};
ghost use Rattle.detect.specs.Laying.{LaidIn, laying_laws};

use crate::walk::{Taker, walk};
use pixel::Listing;
use samples::map::Map;

// A buffer, and how many records were given to it.
#[derive(Drop)]
struct Laying<'a> {
    out: &'a mut [u8],
    n: usize,
}

impl<'a> Taker for Laying<'a> {
    ghost took = { LaidIn };

    ghost room = { λ s. 2 ^ 32 - s.n };

    ghost full = { λ s. false };

    ghost laws = { laying_laws };

    fn take(&mut self, both: Listing) {
        self.n = listing::lay_both(self.out, self.n, both);
    }

    fn is_full(&self) -> bool {
        false
    }
}

// The whole list, from the buffer's start on; answers its length.
pub fn rows_spots(map: &Map, out: &mut [u8]) -> usize
    ensures { Laid out.old out.new 0 result
        (due (maps_in map.now)) }
{
    let rows = map.frame.rows.saturating_sub(8);
    let mut laying = Laying { out, n: 0 };
    walk(map, rows, &mut laying);
    laying.n
}
