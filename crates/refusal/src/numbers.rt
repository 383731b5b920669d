//! The number and the place of a refusal.

ghost use Rattle.std.specs.Prelude.{◌≡◌};
ghost use Rattle.refusal.specs.Refusals.{number_of, place_of};
ghost use Rattle.refusal.specs.Sameness.{TellsRefusals};

use crate::refusal::Refusal;

impl Refusal {
    /// The number of the reason. With the place it tells refusals apart, and `==` answers by the two.
    // Written out: the format fixes the numbers, and a variant with fields has none of its own.
    #[tactic(auto, using(crate::proofs::Sameness::tells_refusals))]
    pub fn number(&self) -> u8
        ensures number { result ≡ number_of self.now }
        ensures apart { (other : Refusal) → TellsRefusals self.now other }
    {
        match self {
            Refusal::TooLong { .. } => 1,
            Refusal::UnknownCommand { .. } => 2,
            Refusal::CutShort { .. } => 3,
            Refusal::OutOfOrder { .. } => 4,
            Refusal::OutOfRange { .. } => 5,
            Refusal::TooManyTransistors { .. } => 6,
            Refusal::Unread => 11,
            Refusal::LoadedAlready => 12,
            Refusal::BadCapacitances => 13,
            Refusal::TooManyModules { .. } => 14,
            Refusal::OtherClass { .. } => 15,
            Refusal::BadTwin { .. } => 16,
            Refusal::NoSuch { .. } => 17,
            Refusal::AlreadyWithdrawn { .. } => 18,
            Refusal::NotWithdrawn { .. } => 19,
            Refusal::BadEnd { .. } => 20,
            Refusal::NoCover => 21,
            Refusal::TooShort { .. } => 31,
        }
    }

    /// Where the reason lies; 0 for a reason without a place.
    // 0 and no None, as the format has it.
    pub fn place(&self) -> usize
        ensures { result ≡ place_of self.now }
    {
        match *self {
            Refusal::TooLong { length } | Refusal::CutShort { length } => length,
            Refusal::UnknownCommand { offset } | Refusal::OutOfOrder { offset } => offset,
            Refusal::OutOfRange { place } | Refusal::TooManyTransistors { place } => place,
            Refusal::TooManyModules { count } => count,
            Refusal::OtherClass { position }
            | Refusal::BadTwin { position }
            | Refusal::AlreadyWithdrawn { position }
            | Refusal::NotWithdrawn { position } => position,
            Refusal::NoSuch { number } => number,
            Refusal::BadEnd { end } => end,
            Refusal::TooShort { needed } => needed,
            Refusal::Unread
            | Refusal::LoadedAlready
            | Refusal::BadCapacitances
            | Refusal::NoCover => 0,
        }
    }
}
