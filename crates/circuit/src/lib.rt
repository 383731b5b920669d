//! What a circuit is.

#![tactic(auto)]

mod circuits;
mod passes;

pub use circuits::Circuit;
pub use passes::{Pass, modules, total_width};
