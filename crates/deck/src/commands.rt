//! The commands of a deck.

ghost use Rattle.std.specs.Prelude.{◌≡◌};
ghost use Rattle.deck.specs.Format.{operands};

use record::Record;

/// A command behind begin. A remark borrows its 16 bytes from the deck; the offset is theirs in the whole deck.
#[derive(Clone, Copy)]
pub enum Command<'a> {
    Transistor(Record),
    Remark { offset: usize, bytes: &'a [u8; 16] },
    // No None in its place: who reads a command has to tell end from a deck that is cut short.
    End,
}

/// The record that the operands of a transistor state.
// No `From`: it would be between types of other crates, which cannot be had here.
pub(crate) fn record_of(bytes: &[u8; 16]) -> Record
    ensures { operands result ≡ bytes.now }
{
    let [
        kind,
        body_high,
        body_low,
        gate_high,
        gate_low,
        source_high,
        source_low,
        drain_high,
        drain_low,
        width_high,
        width_low,
        tag_high,
        tag_low,
        pair_high,
        pair_low,
        side,
    ] = *bytes;
    Record {
        kind,
        body: u16::from_be_bytes([body_high, body_low]),
        gate: u16::from_be_bytes([gate_high, gate_low]),
        source: u16::from_be_bytes([source_high, source_low]),
        drain: u16::from_be_bytes([drain_high, drain_low]),
        width: u16::from_be_bytes([width_high, width_low]),
        tag: u16::from_be_bytes([tag_high, tag_low]),
        pair: u16::from_be_bytes([pair_high, pair_low]),
        side,
    }
}
