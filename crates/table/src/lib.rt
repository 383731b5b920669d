//! A table of records, which is a circuit.

#![tactic(auto)]

mod reading;
mod tables;

pub use tables::{MOST_TRANSISTORS, Table};
