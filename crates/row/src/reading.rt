//! A row is a circuit.

ghost use Rattle.std.specs.Prelude.{◌≡◌, ◌+◌, ◌-◌, ◌<◌, MatchOption};
ghost use Rattle.row.specs.Lawfuls.{row_lawful};
ghost use Rattle.net.specs.Mods.{number_told, instance_told};
ghost use Rattle.row.specs.Rows.{as_instance, row_told, row_rest};

use crate::rows::{MOST_WIDTH, Row};
use circuit::Circuit;
use net::{InstanceKey, Module, NumberKey};

/// A place in a pass over a row: the instance that is told, a place in its cell, and the width that may still be told. In a row that `Row::new` made, that width suffices for all modules.
#[derive(Clone, Copy)]
pub struct RowCursor<B> {
    cell: B,
    instance: u8,
    room: u32,
}

impl<C: Circuit<Key = NumberKey>> Circuit for Row<C> {
    type Key = InstanceKey;

    type Cursor = RowCursor<C::Cursor>;

    ghost list = { λ r. row_told r.told (C.Circuit.list r.cell) };

    ghost rest = { λ r k. row_rest k.room k.instance r.told (C.Circuit.rest r.cell k.cell) (C.Circuit.list r.cell) };

    ghost lawful = { λ r. row_lawful r.told (C.Circuit.list r.cell) (C.Circuit.lawful r.cell) };

    fn begin(&self) -> RowCursor<C::Cursor> {
        RowCursor {
            cell: self.cell.begin(),
            instance: 0,
            room: MOST_WIDTH,
        }
    }

    #[tactic(auto, using(crate::proofs::Steps::rest_over))]
    fn next(&self, cursor: &mut RowCursor<C::Cursor>) -> Option<Module<InstanceKey>> {
        // Counted in the cursor, since a pass may stop behind any module.
        while cursor.instance < self.told {
            if let Some(m) = self.cell.next(&mut cursor.cell) {
                let Some(room) = room_behind(cursor.room, &m) else {
                    // the pass is over
                    cursor.instance = self.told;
                    return None;
                };
                cursor.room = room;
                return Some(at_instance(cursor.instance, &m));
            }
            cursor.cell = self.cell.begin();
            cursor.instance += 1;
        }
        None
    }
}

/// The room that is left behind the module, or None where it is wider than the room.
fn room_behind(room: u32, m: &Module<NumberKey>) -> Option<u32>
    ensures { MatchOption result (room < m.now.width.steps) (λ left. left + m.now.width.steps ≡ room) }
{
    room.checked_sub(u32::from(m.width.steps()))
}

/// The module as one of the instance.
// No `From`: the instance is a second value beside the module.
fn at_instance(instance: u8, m: &Module<NumberKey>) -> Module<InstanceKey>
    ensures { instance_told result ≡ as_instance instance (number_told m.now) }
{
    let key = |net: NumberKey| InstanceKey {
        instance,
        number: net.0,
    };
    Module {
        kind: m.kind,
        body: key(m.body),
        gate: key(m.gate),
        source: key(m.source),
        drain: key(m.drain),
        width: m.width,
        tag: m.tag,
        pairing: m.pairing,
    }
}
