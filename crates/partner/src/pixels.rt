// The due records, pixel by pixel as detection finds them, beside the given list, up to the first difference.
ghost use Rattle.std.specs.Prelude.{◌≡◌, ◌^◌};
ghost use Rattle.pixel.specs.Listed.{listed};
ghost use Rattle.samples.specs.Map.{maps_in};
ghost use Rattle.detect.specs.Due.{due};
ghost use Rattle.follow.specs.Follow.{walk_of, finding_of};
ghost use Rattle.partner.specs.Following.{Followed, over, following_laws};

use detect::walk::{Taker, walk};
use follow::{Finding, Walk, is_going};
use pixel::Listing;
use record::Record;
use samples::map::Map;
use std::ops::ControlFlow;

// What a verdict lists.
fn met(list: &[u8], w: Walk, v: Option<Record>) -> Walk
    ensures { result ≡ walk_of list.now w (listed v) }
{
    match v {
        Some(d) => follow::step(list, w, d),
        None => w,
    }
}

// A given list, and how far it was followed.
#[derive(Drop)]
struct Following<'a> {
    list: &'a [u8],
    walk: Walk,
}

impl<'a> Taker for Following<'a> {
    ghost took = { Followed };

    ghost room = { λ s. 2 ^ 25 };

    ghost full = { over };

    ghost laws = { following_laws };

    // The minimum before the maximum.
    fn take(&mut self, both: Listing) {
        let low = both.low;
        let high = both.high;
        let v = met(self.list, self.walk, low);
        self.walk = met(self.list, v, high);
    }

    fn is_full(&self) -> bool {
        !is_going(self.walk)
    }
}

// The whole list that is due, beside the given one.
pub fn followed(map: &Map, list: &[u8]) -> Finding
    ensures { result ≡ finding_of
        (due (maps_in map.now)) list.now }
{
    let rows = map.frame.rows.saturating_sub(8);
    let mut following = Following {
        list,
        walk: ControlFlow::Continue(0),
    };
    walk(map, rows, &mut following);
    follow::end(list, following.walk)
}
