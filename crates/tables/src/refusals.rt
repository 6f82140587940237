// The number and the value of a refusal, as words that a caller of another language or a printed line can carry.
ghost use Rattle.std.specs.Prelude.{◌≡◌};
ghost use Rattle.tables.specs.Refusal.{cause_of, number, value};

use crate::{Missing, Refusal};

// The number of a cause.
impl From<Missing> for u8 {
    ghost from_gives = { λ why n. n ≡ cause_of why };

    #[tactic(auto, unfolding(crate::specs::Refusal::cause_of))]
    fn from(why: Missing) -> u8 {
        match why {
            Missing::Polarity => 1,
            Missing::Range => 2,
        }
    }
}

// The number of a refusal.
impl From<Refusal> for u32 {
    ghost from_gives = { λ why n. n ≡ number why };

    #[tactic(auto, unfolding(crate::specs::Refusal::number))]
    fn from(why: Refusal) -> u32 {
        match why {
            Refusal::Size => 1,
            Refusal::Level => 2,
            Refusal::Octave => 3,
            Refusal::BadSet => 4,
            Refusal::Records(_) => 5,
            Refusal::Room => 6,
            Refusal::NoSize(_) => 7,
            Refusal::Thresholds => 8,
            Refusal::Past => 9,
            Refusal::Scene => 10,
            Refusal::NotYours => 11,
            Refusal::Count => 12,
            Refusal::NoSpot => 13,
        }
    }
}

// The value that goes with it: a bad record's index, the cause of a missing size, else 0.
#[tactic(auto, unfolding(crate::specs::Refusal::value))]
pub fn value_of(why: Refusal) -> u64
    ensures { result ≡ value why }
{
    match why {
        Refusal::Records(i) => i as u64,
        Refusal::NoSize(cause) => u8::from(cause) as u64,
        Refusal::Size => 0,
        Refusal::Level => 0,
        Refusal::Octave => 0,
        Refusal::BadSet => 0,
        Refusal::Room => 0,
        Refusal::Thresholds => 0,
        Refusal::Past => 0,
        Refusal::Scene => 0,
        Refusal::NotYours => 0,
        Refusal::Count => 0,
        Refusal::NoSpot => 0,
    }
}
