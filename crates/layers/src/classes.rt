//! The class layer.

ghost use Rattle.std.specs.Prelude.{◌≡◌};
ghost use Rattle.net.specs.Mods.{meaning};
ghost use Rattle.net.specs.Classes.{same_class};

use crate::filters::{Filtered, ModuleTest};
use circuit::Circuit;
use net::{Module, NetKey};

/// The modules of the class of `like`: of its kind, on its body net, and paired or not as it is.
#[derive(Copy)]
#[derive_where(Clone; K: Copy)]
pub struct Class<K> {
    pub like: Module<K>,
}

impl<K: NetKey> ModuleTest<K> for Class<K> {
    ghost passes = { λ s. same_class (meaning K.NetKey.net s.like) };

    fn test(&self, m: &Module<K>) -> bool {
        self.like.same_class(m)
    }
}

/// Keeps the modules of one class.
pub type ClassLayer<C, K> = Filtered<C, Class<K>>;

/// The layer over that circuit that keeps the class of `like`, which need not stand in the circuit.
// One equation for each part, as `width_layer` and `Folding::new` have for theirs: three constructors of three types.
pub fn class_layer<C: Circuit>(below: C, like: Module<C::Key>) -> ClassLayer<C, C::Key>
    ensures below { result.below ≡ below }
    ensures like { result.test.like ≡ like }
{
    Filtered {
        below,
        test: Class { like },
    }
}
