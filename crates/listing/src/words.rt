//! The words for what a module is paired with.

ghost use Rattle.std.specs.Prelude.{Some};
ghost use Rattle.listing.specs.Texts.{pairing_text};

use net::Pairing;
use std::fmt;

/// Whether a module is paired: then the number of its pair and its side.
// A wrapper, since an Option has no `Display` and can be given none.
#[derive(Clone, Copy)]
pub(crate) struct PairWords(pub(crate) Option<Pairing>);

impl fmt::Display for PairWords {
    ghost output = { λ p. Some (pairing_text p.0) };

    fn fmt<W: fmt::Write>(&self, f: &mut fmt::Formatter<W>) -> fmt::Result {
        match self.0 {
            None => write!(f, "unpaired"),
            Some(Pairing { number, side }) => write!(f, "pair {number} {side}"),
        }
    }
}
