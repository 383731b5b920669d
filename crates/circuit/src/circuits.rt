//! What a circuit is: a list of modules, asked by position or read in one pass.

ghost use Rattle.std.specs.Prelude.{◌≡◌, List, length};
ghost use Rattle.net.specs.Mods.{Mod, Lawful};
ghost use Rattle.circuit.specs.Tells.{Tells, Steps};

use net::{Module, NetKey};

/// A circuit means a list of modules. Asking changes nothing.
pub trait Circuit {
    /// The key in which it tells its nets.
    type Key: NetKey;

    /// A place in a pass over the circuit.
    type Cursor: Copy;

    // the modules, by their nets
    ghost list: { Self → List Mod };

    // what is still to be told behind a cursor
    ghost rest: { Self → Self.Cursor → List Mod };

    // the proof that the list keeps the ranges and the total width
    ghost lawful: { (c : Self) → Lawful (list c) };

    /// A cursor before the first module.
    fn begin(&self) -> Self::Cursor
        ensures { rest self.now result ≡ list self.now };

    /// The next module of a pass, or None where none is left.
    fn next(&self, cursor: &mut Self::Cursor) -> Option<Module<Self::Key>>
        ensures { Steps Self.Key.NetKey.net (rest self.now cursor.old) result (rest self.now cursor.new) };

    /// How many modules there are.
    // Counted by hand: no proof can hand a trait on from a body in that trait, as `modules(self)` would, or knows that an
    // iterator made `from_fn` ends.
    fn count(&self) -> usize
        ensures { result ≡ length (list self.now) }
    {
        let mut n = 0usize;
        let mut cursor = self.begin();
        while let Some(_m) = self.next(&mut cursor) {
            n += 1;
        }
        n
    }

    /// The module at that position, or None behind the last.
    fn module(&self, position: usize) -> Option<Module<Self::Key>>
        ensures { Tells Self.Key.NetKey.net (list self.now) position result }
    {
        let mut cursor = self.begin();
        for _ in 0..position {
            self.next(&mut cursor)?;
        }
        self.next(&mut cursor)
    }
}

/// A borrowed circuit is a circuit.
// Each body hands on: that is what makes the borrowed one answer as the other does.
impl<'a, C: Circuit> Circuit for &'a C {
    type Key = C::Key;

    type Cursor = C::Cursor;

    ghost list = { λ s. C.Circuit.list s.now };

    ghost rest = { λ s. C.Circuit.rest s.now };

    ghost lawful = { λ s. C.Circuit.lawful s.now };

    fn begin(&self) -> C::Cursor {
        (**self).begin()
    }

    #[inline(always)]
    fn next(&self, cursor: &mut C::Cursor) -> Option<Module<C::Key>> {
        (**self).next(cursor)
    }

    fn count(&self) -> usize {
        (**self).count()
    }

    fn module(&self, position: usize) -> Option<Module<C::Key>> {
        (**self).module(position)
    }
}
