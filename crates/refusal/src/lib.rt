//! Refusals, the layers that give them, and the text line of a fault.

#![tactic(auto)]

mod fault;
mod numbers;
mod refusal;
mod written;

pub use fault::{Fault, LINE_ROOM, Layer};
pub use refusal::Refusal;
pub use written::write_decimal;
