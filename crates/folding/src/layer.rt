//! The layer and its passes.

ghost use Rattle.std.specs.Prelude.{◌≡◌, ◌++◌};
ghost use Rattle.folding.specs.Folds.{folded_by};
ghost use Rattle.folding.specs.Untold.{under_way};
ghost use Rattle.folding.specs.Lawfuls.{folded_lawful};
ghost use Rattle.folding.specs.Laws.{FoldsWell, FoldsTwins};

use crate::fingers::Fingers;
use circuit::Circuit;
use net::{Module, NetKey};

/// The fingers of the modules of the circuit below. A finger is no wider than the limit; the limit 0 folds nothing.
#[derive(Clone, Copy, Drop)]
pub struct Folding<C> {
    below: C,
    // A number and no Option: the rule is that 0 folds nothing.
    limit: u16,
}

/// The cursor below, and the fingers of the module under way.
#[derive(Copy)]
#[derive_where(Clone; B, K: Copy)]
pub struct FoldingCursor<B, K> {
    below: B,
    fingers: Option<Fingers<K>>,
}

impl<C: Circuit> Folding<C> {
    /// The layer over that circuit with that limit. Folding keeps the total width, and the fingers of twins of equal widths are twins.
    pub fn new(below: C, limit: u16) -> Folding<C>
        ensures below { result.below ≡ below }
        ensures limit { result.limit ≡ limit }
        ensures folds { FoldsWell limit (C.Circuit.list below) }
        ensures twins { FoldsTwins limit (C.Circuit.list below) }
    {
        Folding { below, limit }
    }
}

impl<C: Circuit> Circuit for Folding<C> {
    type Key = C::Key;

    type Cursor = FoldingCursor<C::Cursor, C::Key>;

    ghost list = { λ s. folded_by s.limit (C.Circuit.list s.below) };

    ghost rest = { λ s cursor. under_way C.Key.NetKey.net s.limit cursor.fingers ++ folded_by s.limit (C.Circuit.rest s.below cursor.below) };

    ghost lawful = { λ s. folded_lawful s.limit (C.Circuit.list s.below) (C.Circuit.lawful s.below) };

    fn begin(&self) -> FoldingCursor<C::Cursor, C::Key> {
        FoldingCursor {
            below: self.below.begin(),
            fingers: None,
        }
    }

    #[inline(always)]
    fn next(&self, cursor: &mut FoldingCursor<C::Cursor, C::Key>) -> Option<Module<C::Key>> {
        if let Some(fingers) = &mut cursor.fingers
            && let Some(finger) = fingers.next_under(self.limit)
        {
            return Some(finger);
        }
        let m = self.below.next(&mut cursor.below)?;
        let fingers = Fingers::new(m, self.limit);
        cursor.fingers.insert(fingers).next_under(self.limit)
    }
}
