//! The house pile is a circuit.

ghost use Rattle.std.specs.Prelude.{◌≡◌};
ghost use Rattle.net.specs.Mods.{meaning};
ghost use Rattle.pile.specs.Piles.{house_pile, pile_rest, circuit_of, limit_of, like_of};
ghost use Rattle.pile.specs.Lawfuls.{pile_lawful};

use crate::piles::HousePile;
use circuit::Circuit;
use folding::{Folding, FoldingCursor};
use layers::{class_layer, width_layer};
use net::Module;

impl<C: Circuit> HousePile<C, C::Key> {
    /// The house pile over that circuit, folded with that limit, for the class of `like`, which need not stand in the circuit.
    pub fn new(circuit: C, limit: u16, like: Module<C::Key>) -> HousePile<C, C::Key>
        ensures circuit { circuit_of result ≡ circuit }
        ensures limit { limit_of result ≡ limit }
        ensures like { like_of result ≡ like }
        ensures tells { house_pile (limit_of result) (meaning C.Key.NetKey.net (like_of result)) (C.Circuit.list (circuit_of result)) ≡ house_pile limit (meaning C.Key.NetKey.net like) (C.Circuit.list circuit) }
    {
        let fingers = Folding::new(circuit, limit);
        HousePile {
            layers: width_layer(class_layer(fingers, like), 1, 4095),
        }
    }
}

impl<C: Circuit> Circuit for HousePile<C, C::Key> {
    type Key = C::Key;

    type Cursor = FoldingCursor<C::Cursor, C::Key>;

    ghost list = { λ h. house_pile (limit_of h) (meaning C.Key.NetKey.net (like_of h)) (C.Circuit.list (circuit_of h)) };

    ghost rest = { λ h cursor. pile_rest C.Key.NetKey.net (limit_of h) (like_of h) cursor.fingers (C.Circuit.rest (circuit_of h) cursor.below) };

    ghost lawful = { λ h. pile_lawful (limit_of h) (meaning C.Key.NetKey.net (like_of h)) (C.Circuit.list (circuit_of h)) (C.Circuit.lawful (circuit_of h)) };

    fn begin(&self) -> FoldingCursor<C::Cursor, C::Key> {
        self.layers.begin()
    }

    #[inline(always)]
    fn next(&self, cursor: &mut FoldingCursor<C::Cursor, C::Key>) -> Option<Module<C::Key>> {
        self.layers.next(cursor)
    }
}
