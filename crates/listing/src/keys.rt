//! The names of nets.

ghost use Rattle.std.specs.Prelude.{◌≡◌, ℕ, List, Some, refl};
ghost use Rattle.net.specs.Names.{number_text, instance_text};

use net::{InstanceKey, NetKey, NumberKey};
use std::fmt;

/// A key that prints as the name of its net.
pub trait NamedKey: NetKey + fmt::Display {
    // the name, as bytes
    ghost name: { Self → List ℕ };

    // the proof that the key prints just that
    ghost prints_name: { (k : Self) → Self.output k ≡ Some (name k) };
}

impl NamedKey for NumberKey {
    ghost name = { λ k. number_text k.0 };

    ghost prints_name = { λ k. refl };
}

impl NamedKey for InstanceKey {
    ghost name = { λ k. instance_text k.instance k.number };

    ghost prints_name = { λ k. refl };
}
