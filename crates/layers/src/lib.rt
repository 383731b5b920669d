//! Layers that keep some modules of a circuit: those of one class, and those in a range of widths.

#![tactic(auto)]

mod classes;
mod filters;
mod ranges;

pub use classes::{Class, ClassLayer, class_layer};
pub use filters::{Filtered, ModuleTest};
pub use ranges::{WidthLayer, WidthRange, width_layer};
