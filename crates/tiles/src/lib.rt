// The tiles along a side of a scene: how many they are, where each begins and how long it is.
#![tactic(auto)]

pub mod copy; // copy.rt: a tile's copy of a level

ghost use Rattle.std.specs.Prelude.{◌≡◌, ◌*◌, ◌≤◌};
ghost use Rattle.tiles.specs.Tiles.{tile_step, tiles_of, start_of, length_of};

// How many pixels later the next tile begins.
const STEP: usize = 4088;

// How many pixels a tile has at most: two neighbours share eight.
const RUN: usize = 4096;

// How many tiles a side has.
pub fn tiles_of(side: usize) -> usize
    ensures { result ≡ tiles_of tile_step side }
{
    if side < 9 {
        return 1;
    }
    (side - 9) / STEP + 1
}

// Where tile k begins.
pub fn start_of(k: usize) -> usize
    requires { k ≤ 16384 }
    ensures { result ≡ start_of tile_step k }
{
    k * STEP
}

// How long tile k of a side is.
pub fn length_of(side: usize, k: usize) -> usize
    requires { k * tile_step ≤ side }
    ensures { result ≡ length_of tile_step side k }
{
    let left = side - k * STEP;
    if RUN < left {
        return RUN;
    }
    left
}
