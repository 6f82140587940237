// A column given to a feed.
ghost use Rattle.std.specs.Prelude.{◌≤◌};
ghost use Rattle.samples.specs.Map.{four_in};
ghost use Rattle.ring.specs.Lent.{Lent};

use crate::State;
use grid::Levels;

// The given column of each level, with the feed's state and its ring before it.
#[derive(Clone, Copy)]
pub struct Column<'a> {
    pub state: State,
    pub ring: Levels<'a>,
    pub given: Levels<'a>,
    pub ghost lent: { Lent state.rows (four_in ring) (four_in given) },
    pub ghost small: { (state.cols ≤ 4096) × (state.position ≤ 4096) },
}
