//! A transistor in plain numbers, and the module that it states.

#![tactic(auto)]

mod field;
mod records;

pub use field::Field;
pub use records::Record;
