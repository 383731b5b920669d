//! The fields that a record can get wrong.

ghost use Rattle.std.specs.Prelude.{◌≡◌};
ghost use Rattle.record.specs.declared.field.Field.TheVariants.{Kind as KindField, Side as SideField};

use net::{UnknownKind, UnknownSide};

/// A field of a record that can be out of range. The other fields have 16 bits, and any such number will do.
#[derive(Clone, Copy, PartialEq, Eq)]
pub enum Field {
    Kind,
    Width,
    Side,
}

impl From<UnknownKind> for Field {
    ghost from_gives = { λ _ f. f ≡ KindField };

    fn from(_: UnknownKind) -> Field {
        Field::Kind
    }
}

impl From<UnknownSide> for Field {
    ghost from_gives = { λ _ f. f ≡ SideField };

    fn from(_: UnknownSide) -> Field {
        Field::Side
    }
}
