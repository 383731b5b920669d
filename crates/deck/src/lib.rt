//! The deck: transistors and remarks as bytes, checked and read. A deck is a circuit.

#![tactic(auto)]

mod checks;
mod codes;
mod commands;
mod decks;
mod reader;
mod reading;

pub use checks::check;
pub use codes::{BEGIN, EDITION, END, REMARK, TRANSISTOR};
pub use commands::Command;
pub use decks::Deck;
pub use reader::Commands;
