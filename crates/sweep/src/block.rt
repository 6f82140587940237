// Blocks of 254 judged rows.
ghost use Rattle.std.specs.Prelude.{◌≡◌, ◌+◌, ◌%◌, ◌<◌, length};
ghost use Rattle.samples.specs.Map.{maps_in};
ghost use Rattle.sweep.specs.Ruled.{Block};

use crate::pass::sweep;
use samples::map::Map;

// Sweeps the block that begins at the judged row j, if one does: after it the marks are those of the block that j lies in.
pub fn refresh(map: &Map, j: usize, marks: &mut [u8; 131072])
    requires j_bound { j + 8 < map.now.frame.rows }
    requires block { (0 < j % 254) → Block (maps_in map.now) j marks.old }
    ensures { Block (maps_in map.now) j marks.new }
{
    if j % 254 == 0 {
        sweep(map, j, (map.frame.rows - 8 - j).min(254), marks);
    }
}
