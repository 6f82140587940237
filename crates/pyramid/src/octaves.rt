// The octaves of a shortest side.
ghost use Rattle.std.specs.Prelude.{◌≡◌};
ghost use Rattle.pyramid.specs.Pyramid.{octaves_of};

// How many octaves a map has whose shortest side is this.
pub fn octaves(side: usize) -> u32
    ensures { result ≡ octaves_of side }
{
    match side {
        0..=9 => 0,
        10..=64 => 1,
        65..=128 => 2,
        129..=256 => 3,
        257..=512 => 4,
        513..=1024 => 5,
        _ => 6,
    }
}
