// The set of tables and the thresholds, by value; when a set is good, and whether a threshold is no number; a set's reader from a record of 528 bytes.
#![tactic(auto)]

ghost use Rattle.std.specs.Prelude.{◌≡◌};
ghost use Rattle.tables.specs.Set.{good};
ghost use Rattle.tables.specs.Refusal.{any_nan, read_set_of, read_or_blank};

mod good;
mod limits;
mod reader;
pub mod refusals;

pub use reader::set_of;

// Tables and numbers that decide what a spot is. `scale` and `geometry` have rows a, b, c, d of three entries each; `spatial` has rows w1 to w5 of
// nine entries each for scale index 1, then for 2; `numbers` are log sigma origin, curvature epsilon, fit T min, T max, accepted sigma min, max,
// blend beta, boost, compatibility lower, upper, move cap.
#[derive(Clone, Copy)]
pub struct Set {
    pub sigmas: [f32; 4],
    pub scale: [f32; 12],
    pub geometry: [f32; 12],
    pub spatial: [f32; 90],
    pub numbers: [f32; 11],
    pub order: [u8; 9],
}

// What a spot must pass: an entry refuses a NaN among them; infinities and a window from high to low are allowed.
#[derive(Clone, Copy)]
pub struct Thresholds {
    pub peak: f32,
    pub sigma: f32,
    pub ratio: f32,
    pub low: f32,
    pub high: f32,
}

// Why a spot has no size: at its place the curve is not one of its polarity or not finite, or its step leads out of the fitted range.
#[derive(Debug, Clone, Copy, PartialEq, Eq)]
pub enum Missing {
    Polarity,
    Range,
}

// Why a call was refused; specs/Refusal.antt gives each its number.
#[derive(Debug, Clone, Copy, PartialEq, Eq)]
pub enum Refusal {
    Size,
    Level,
    Octave,
    BadSet,
    Records(usize),
    Room,
    NoSize(Missing),
    Thresholds,
    Past,
    Scene,
    NotYours,
    Count,
    NoSpot,
}

// Why a set's record was not read; and in the set's place that of zeros, which is not good.
#[derive(Clone, Copy)]
pub struct Unread {
    pub why: Refusal,
    pub set: Set,
}

// Whether the set is good.
pub fn is_good(s: Set) -> bool
    ensures { result ≡ good s }
{
    good::all_set(s)
        & good::is_rising(s.sigmas)
        & !(s.numbers[10] < 0.0)
        & good::all_under(&s.order, 9)
}

// Whether one of the five thresholds is a NaN.
pub fn has_nan(t: Thresholds) -> bool
    ensures { result ≡ any_nan t }
{
    limits::nan_among(t.peak, t.sigma, t.ratio, t.low, t.high)
}

// The set that a record holds, or the refusal of the record with the set of zeros beside it.
pub fn read_set(bytes: &[u8]) -> Result<Set, Unread>
    ensures { result ≡ read_set_of bytes.now }
{
    if bytes.len() != 528 {
        return Err(reader::refused());
    }
    if !reader::is_spare_zero(bytes) {
        return Err(reader::refused());
    }
    let set = reader::set_of(bytes);
    if !is_good(set) {
        return Err(reader::refused());
    }
    Ok(set)
}

// The set that a record holds; the set of zeros, which is not good, where the record is refused.
pub fn read_or_blank(bytes: &[u8]) -> Set
    ensures { result ≡ read_or_blank bytes.now }
{
    match read_set(bytes) {
        Ok(set) => set,
        Err(unread) => unread.set,
    }
}
