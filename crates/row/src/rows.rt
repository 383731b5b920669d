//! A row: instances of one cell, side by side.

ghost use Rattle.std.specs.Prelude.{◌≡◌, ◌≤◌, if◌then◌else◌};
ghost use Rattle.row.specs.Rows.{RailsAreShared, row_fits, row_of, row_told};

use circuit::{Circuit, total_width};
use net::NumberKey;
use std::alloc::AllocError;

/// The most instances that a row tells.
const MOST_INSTANCES: u16 = 16;

/// The most that the widths of a circuit add up to.
pub(crate) const MOST_WIDTH: u32 = 1_048_320;

/// A cell, and how many instances of it are told: at most 16, instance 0 first. Net numbers 0 to 15 of the cell are rails: each is one net in all instances.
#[derive(Copy, Drop)]
pub struct Row<C> {
    pub(crate) cell: C,
    pub(crate) told: u8,
    ghost few: { told ≤ 16 },
}

// Written out: a derive is refused over a ghost field of a type with parameters.
impl<C: Copy> Clone for Row<C> {
    ghost is_clone = { λ x y. y ≡ x };

    ghost is_infallible = { λ _. Unit {0} };

    fn clone(&self) -> Result<Row<C>, AllocError> {
        Ok(*self)
    }
}

impl<C: Circuit<Key = NumberKey>> Row<C> {
    /// The row of so many instances of the cell. It tells nothing if these are more than 16, or wider in all than a circuit may be. The cell is read once here.
    #[tactic(auto, using(crate::proofs::Fits::told_row))]
    pub fn new(cell: C, instances: u16) -> Row<C>
        ensures tells { row_told result.told (C.Circuit.list result.cell) ≡ row_of instances (C.Circuit.list cell) }
        ensures cell { result.cell ≡ cell }
        ensures rails { RailsAreShared }
    {
        let told = instances_told(&cell, instances);
        Row { cell, told }
    }
}

/// How many of so many instances are told: all, or none where the row does not fit.
// No Option: 0 is a count, and a row of no instances tells nothing too.
fn instances_told<C: Circuit<Key = NumberKey>>(cell: &C, instances: u16) -> u8
    ensures told { result ≡ (if row_fits instances (C.Circuit.list cell.now) then instances else 0) }
    ensures few { result ≤ 16 }
{
    if instances > MOST_INSTANCES {
        return 0;
    }
    if u32::from(instances) * total_width(cell) > MOST_WIDTH {
        return 0;
    }
    instances as u8
}
