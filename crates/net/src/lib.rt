//! Nets and the keys that name them, and modules over any such keys.

#![tactic(auto)]

mod keys;
mod modules;
mod widths;

pub use keys::{InstanceKey, NetKey, NumberKey};
pub use modules::{Kind, Module, Pairing, Side, UnknownKind, UnknownSide};
pub use widths::Width;
