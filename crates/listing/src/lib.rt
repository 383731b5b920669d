//! The lines of modules, with their nets told by any keys that have names.

#![tactic(auto)]

mod keys;
mod lines;
mod totals;
mod words;

pub use keys::NamedKey;
pub use lines::ModuleLine;
pub use totals::{Totals, list_modules};
