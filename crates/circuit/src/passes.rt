//! A pass over a circuit as an iterator, and what one pass adds up.

ghost use Rattle.std.specs.Prelude.{◌≡◌};
ghost use Rattle.std.specs.Iterator.{YieldsFirstBy, item_count};
ghost use Rattle.net.specs.Mods.{meaning, widths};

use crate::circuits::Circuit;
use net::Module;

/// A pass over a circuit: the modules that are still to be told, one by one.
#[derive(Drop)]
pub struct Pass<'a, C: Circuit> {
    circuit: &'a C,
    cursor: C::Cursor,
}

/// All modules of the circuit, in one pass.
pub fn modules<C: Circuit>(circuit: &C) -> Pass<'_, C>
    ensures over { result.circuit.now ≡ circuit.now }
    ensures all { C.Circuit.rest result.circuit.now result.cursor ≡ C.Circuit.list circuit.now }
{
    Pass {
        circuit,
        cursor: circuit.begin(),
    }
}

impl<'a, C: Circuit> Iterator for Pass<'a, C> {
    type Item = Module<C::Key>;

    ghost next_gives = { YieldsFirstBy (meaning C.Key.NetKey.net) (λ s. C.Circuit.rest s.circuit.now s.cursor) };

    ghost remaining = { item_count (λ s. C.Circuit.rest s.circuit.now s.cursor) };

    // Inlined here and in the layers: a call for each module would copy it once more at each of them.
    #[inline(always)]
    fn next(&mut self) -> Option<Module<C::Key>> {
        self.circuit.next(&mut self.cursor)
    }
}

/// The widths of all modules, added up in one pass.
pub fn total_width<C: Circuit>(circuit: &C) -> u32
    ensures { result ≡ widths (C.Circuit.list circuit.now) }
{
    modules(circuit).map(|m| u32::from(m.width.steps())).sum()
}
