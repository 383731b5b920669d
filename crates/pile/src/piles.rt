//! The layers of the house pile.

ghost use Rattle.std.specs.Prelude.{◌≡◌};

use folding::Folding;
use layers::{ClassLayer, WidthLayer};

/// The fingers of a circuit that are of one class: a folding layer, a class layer over it, and over that a width layer of 1 to 4,095.
// A type of its own: another name for the three layers would leave the two ends of the width layer open.
#[derive(Drop)]
pub struct HousePile<C, K> {
    pub(crate) layers: WidthLayer<ClassLayer<Folding<C>, K>>,
    ghost lowest: { layers.test.lowest ≡ 1 },
    ghost highest: { layers.test.highest ≡ 4095 },
}
