//! The house pile: what of a circuit is stacked together.

#![tactic(auto)]

mod piles;
mod reading;

pub use piles::HousePile;
