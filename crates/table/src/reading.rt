//! A table is a circuit.

ghost use Rattle.std.specs.Prelude.{drop};
ghost use Rattle.table.specs.Tables.{told_by};
ghost use Rattle.table.specs.Lawfuls.{table_lawful};

use crate::tables::Table;
use circuit::Circuit;
use net::{Module, NumberKey};

impl<'a> Circuit for Table<'a> {
    type Key = NumberKey;

    // A position and not the records behind it: a cursor may be any value, and those could be records that no check has seen.
    type Cursor = usize;

    ghost list = { λ t. told_by t.verdict t.records.now };

    ghost rest = { λ t i. told_by t.verdict (drop i t.records.now) };

    ghost lawful = { λ t. table_lawful t.verdict t.records.now t.checked };

    fn begin(&self) -> usize {
        0
    }

    fn next(&self, cursor: &mut usize) -> Option<Module<NumberKey>> {
        let m = self.module(*cursor)?;
        *cursor += 1;
        Some(m)
    }

    /// Answered in one step.
    fn count(&self) -> usize {
        self.accepted().len()
    }

    /// Answered in one step.
    fn module(&self, position: usize) -> Option<Module<NumberKey>> {
        let r = self.accepted().get(position)?;
        Module::try_from(r).ok()
    }
}
