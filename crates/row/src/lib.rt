//! A row of instances of one cell, which is a circuit.

#![tactic(auto)]

mod reading;
mod rows;

pub use reading::RowCursor;
pub use rows::Row;
