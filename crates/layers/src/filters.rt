//! A layer that keeps the modules that pass a test.

ghost use Rattle.std.specs.Prelude.{◌≡◌, Bool, filter};
ghost use Rattle.net.specs.Mods.{Mod, meaning};
ghost use Rattle.layers.specs.Lawfuls.{kept_lawful};

use circuit::Circuit;
use net::{Module, NetKey};

/// A test of modules whose nets are named by keys of the type K.
pub trait ModuleTest<K: NetKey> {
    // which modules pass, by their nets
    ghost passes: { Self → Mod → Bool };

    /// Whether the module passes.
    fn test(&self, m: &Module<K>) -> bool
        ensures { result ≡ passes self.now (meaning K.NetKey.net m.now) };
}

/// The modules of the circuit below that pass the test, in their order.
#[derive(Clone, Copy, Drop)]
pub struct Filtered<C, T> {
    pub below: C,
    pub test: T,
}

impl<C: Circuit, T: ModuleTest<C::Key>> Circuit for Filtered<C, T> {
    type Key = C::Key;

    type Cursor = C::Cursor;

    ghost list = { λ s. filter (T.ModuleTest.passes s.test) (C.Circuit.list s.below) };

    ghost rest = { λ s cursor. filter (T.ModuleTest.passes s.test) (C.Circuit.rest s.below cursor) };

    ghost lawful = { λ s. kept_lawful (T.ModuleTest.passes s.test) (C.Circuit.list s.below) (C.Circuit.lawful s.below) };

    fn begin(&self) -> C::Cursor {
        self.below.begin()
    }

    #[inline(always)]
    fn next(&self, cursor: &mut C::Cursor) -> Option<Module<C::Key>> {
        // No `find` over `from_fn`: no proof knows that such an iterator ends.
        while let Some(m) = self.below.next(cursor) {
            if self.test.test(&m) {
                return Some(m);
            }
        }
        None
    }
}
