//! A deck, with what its check answered.

ghost use Rattle.std.specs.Prelude.{◌≡◌};
ghost use Rattle.deck.specs.Rules.{Judged};
ghost use Rattle.deck.specs.Told.{Told};
ghost use Rattle.deck.specs.Verdicts.{deck_verdict, deck_tells};

use crate::checks::check;
use refusal::Refusal;

/// The bytes of a deck. A deck that its check refuses tells nothing.
// A table has this shape too. One type for both would take a trait for their checks, and be longer than the two.
#[derive(Clone, Copy)]
pub struct Deck<'a> {
    pub(crate) bytes: &'a [u8],
    verdict: Result<(), Refusal>,
    ghost checked: { verdict ≡ deck_verdict bytes.now },
}

impl<'a> Deck<'a> {
    /// The deck of these bytes.
    pub fn new(bytes: &'a [u8]) -> Deck<'a>
        ensures bytes { result.bytes.now ≡ bytes.now }
        ensures judged { Judged bytes.now result.verdict }
        ensures tells { Told bytes.now (deck_tells result.verdict result.bytes.now) }
    {
        Deck {
            bytes,
            verdict: check(bytes),
        }
    }

    /// What the check of the deck answered.
    pub fn check(&self) -> Result<(), Refusal>
        ensures { result ≡ deck_verdict self.now.bytes.now }
    {
        self.verdict
    }
}
