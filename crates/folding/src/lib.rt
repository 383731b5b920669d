//! The folding layer: it cuts each module of a circuit into fingers that are no wider than a limit.

#![tactic(auto)]

mod cutting;
mod fingers;
mod layer;

pub use layer::{Folding, FoldingCursor};
