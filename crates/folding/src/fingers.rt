//! The fingers of one module, told from first to last.

ghost use Rattle.std.specs.Prelude.{◌≡◌, ◌≤◌};
ghost use Rattle.net.specs.Mods.{meaning};
ghost use Rattle.folding.specs.Folds.{finger_count};

use crate::cutting::finger_count;
use net::{Module, NetKey, Width};
use std::alloc::AllocError;

/// The fingers of a module that are still to be told, and the limit under which they are so many.
#[derive(Copy)]
pub(crate) struct Fingers<K> {
    whole: Module<K>,
    limit: u16,
    count: u16,
    told: u16,
    ghost counted: { count ≡ finger_count limit whole.width.steps },
    ghost some: { 1 ≤ count },
    ghost narrow: { count ≤ whole.width.steps },
}

// Written out: a derive is refused over a ghost field of a type with parameters.
impl<K: Copy> Clone for Fingers<K> {
    ghost is_clone = { λ x y. y ≡ x };

    ghost is_infallible = { λ _. Unit {0} };

    fn clone(&self) -> Result<Fingers<K>, AllocError> {
        Ok(*self)
    }
}

impl<K: NetKey> Fingers<K> {
    ghost use Rattle.circuit.specs.Tells.{Steps};
    ghost use Rattle.folding.specs.Folds.{finger_width, fingers};
    ghost use Rattle.folding.specs.Untold.{untold, untold_under};

    /// All fingers of the module under that limit.
    pub(crate) fn new(whole: Module<K>, limit: u16) -> Fingers<K>
        ensures all { untold K.NetKey.net result ≡ fingers limit (meaning K.NetKey.net whole) }
        ensures under { untold_under K.NetKey.net limit result ≡ fingers limit (meaning K.NetKey.net whole) }
    {
        Fingers {
            count: finger_count(limit, whole.width),
            whole,
            limit,
            told: 0,
        }
    }

    /// The next finger under that limit, whatever the limit of these so far.
    pub(crate) fn next_under(&mut self, limit: u16) -> Option<Module<K>>
        ensures { Steps K.NetKey.net (untold_under K.NetKey.net limit self.old) result (untold_under K.NetKey.net limit self.new) }
    {
        // A case of its own: so a pass divides once a module, and not once a finger.
        if limit == self.limit {
            return self.next();
        }
        self.count = finger_count(limit, self.whole.width);
        self.limit = limit;
        self.next()
    }

    /// The width of the next finger.
    fn width(&self) -> Width
        ensures { result.steps ≡ finger_width self.now.count self.now.told self.now.whole.width.steps }
    {
        let steps = self.whole.width.steps();
        let wider = u16::from(self.told < steps % self.count);
        match Width::new(steps / self.count + wider) {
            Some(narrow) => narrow,
            None => unreachable(),
        }
    }
}

impl<K: NetKey> Iterator for Fingers<K> {
    ghost use Rattle.std.specs.Iterator.{YieldsFirstBy, item_count};
    ghost use Rattle.folding.specs.Untold.{untold};

    type Item = Module<K>;

    // the first of what is untold, under the same limit
    ghost next_gives = { λ s r t. YieldsFirstBy (meaning K.NetKey.net) (untold K.NetKey.net) s r t × (t.limit ≡ s.limit) };

    ghost remaining = { item_count (untold K.NetKey.net) };

    fn next(&mut self) -> Option<Module<K>> {
        if self.told >= self.count {
            return None;
        }
        let width = self.width();
        // The count is the iterator's state: a Range in its place would be no `Copy`, as a cursor is.
        self.told += 1;
        Some(Module {
            width,
            ..self.whole
        })
    }
}
