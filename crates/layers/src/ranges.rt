//! The width layer.

ghost use Rattle.std.specs.Prelude.{◌≡◌};
ghost use Rattle.layers.specs.Kept.{in_widths};

use crate::filters::{Filtered, ModuleTest};
use circuit::Circuit;
use net::{Module, NetKey};

/// The modules with a width from `lowest` to `highest`, both included.
#[derive(Clone, Copy)]
pub struct WidthRange {
    pub lowest: u16,
    pub highest: u16,
}

impl<K: NetKey> ModuleTest<K> for WidthRange {
    ghost passes = { λ s. in_widths s.lowest s.highest };

    fn test(&self, m: &Module<K>) -> bool {
        (self.lowest..=self.highest).contains(&m.width.steps())
    }
}

/// Keeps the modules in a range of widths.
pub type WidthLayer<C> = Filtered<C, WidthRange>;

/// The layer over that circuit that keeps the widths from `lowest` to `highest`.
// Two numbers and no `WidthRange`, which who has two widths would only make for this call.
pub fn width_layer<C: Circuit>(below: C, lowest: u16, highest: u16) -> WidthLayer<C>
    ensures below { result.below ≡ below }
    ensures lowest { result.test.lowest ≡ lowest }
    ensures highest { result.test.highest ≡ highest }
{
    Filtered {
        below,
        test: WidthRange { lowest, highest },
    }
}
