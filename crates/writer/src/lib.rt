//! The deck that states the transistors of a table.

#![tactic(auto)]

ghost use Rattle.std.specs.Prelude.{◌≡◌, ◌*◌, ◌≤◌, ◌∷◌, map, length};
ghost use Rattle.refusal.specs.Written.{over};
ghost use Rattle.deck.specs.Format.{transistor, operands, entries_bytes};
ghost use Rattle.writer.specs.Writing.{table_deck, writer_answer, writer_buffer};
ghost use Rattle.writer.specs.RoundTrips.{ReadBack, WrittenAgain};

use deck::{BEGIN, EDITION, END, TRANSISTOR};
use record::Record;
use refusal::Refusal;
use table::Table;

/// A transistor takes so many bytes of a deck.
const TRANSISTOR_BYTES: usize = 17;

/// Writes the deck of a checked table at the front of the buffer, and answers its length.
/// A table that its check refuses, and a buffer that is too short, leave the buffer as it was.
pub fn write_deck(table: &Table<'_>, buf: &mut [u8]) -> Result<usize, Refusal>
    ensures answer { result ≡ writer_answer table.now.records.now buf.old }
    ensures after { buf.new ≡ writer_buffer table.now.records.now buf.old }
    ensures back { ReadBack table.now.records.now }
    ensures again { WrittenAgain table.now.records.now }
{
    table.check()?;
    let records = table.records();
    let needed = 3 + TRANSISTOR_BYTES * records.len();
    if buf.len() < needed {
        return Err(Refusal::TooShort { needed });
    }
    put_deck(records, buf);
    Ok(needed)
}

/// Writes begin, a transistor for each record, and end.
// By index, since the buffer is the caller's, and each part has its place in it.
fn put_deck(records: &[Record], buf: &mut [u8])
    requires { length (table_deck records.now) ≤ length buf.old }
    ensures { buf.new ≡ over (table_deck records.now) buf.old }
{
    buf[0] = BEGIN;
    buf[1] = EDITION;
    put_transistors(records, &mut buf[2..]);
    buf[2 + TRANSISTOR_BYTES * records.len()] = END;
}

/// Writes a transistor for each record at the front.
fn put_transistors(records: &[Record], buf: &mut [u8])
    requires { 17 * length records.now ≤ length buf.old }
    ensures { buf.new ≡ over (entries_bytes (map transistor records.now)) buf.old }
{
    // By index: of chunks that borrow the buffer a proof knows nothing once the borrow ends.
    for (i, record) in records.iter().enumerate() {
        let at = TRANSISTOR_BYTES * i;
        buf[at..at + TRANSISTOR_BYTES].copy_from_slice(&transistor_bytes(record));
    }
}

/// The command of one transistor.
// No `From`: it would be between types of other crates, which cannot be had here.
fn transistor_bytes(t: &Record) -> [u8; TRANSISTOR_BYTES]
    ensures { result ≡ 0x20 ∷ operands t.now }
{
    let Record {
        kind,
        body,
        gate,
        source,
        drain,
        width,
        tag,
        pair,
        side,
    } = *t;
    let [body_high, body_low] = body.to_be_bytes();
    let [gate_high, gate_low] = gate.to_be_bytes();
    let [source_high, source_low] = source.to_be_bytes();
    let [drain_high, drain_low] = drain.to_be_bytes();
    let [width_high, width_low] = width.to_be_bytes();
    let [tag_high, tag_low] = tag.to_be_bytes();
    let [pair_high, pair_low] = pair.to_be_bytes();
    [
        TRANSISTOR,
        kind,
        body_high,
        body_low,
        gate_high,
        gate_low,
        source_high,
        source_low,
        drain_high,
        drain_low,
        width_high,
        width_low,
        tag_high,
        tag_low,
        pair_high,
        pair_low,
        side,
    ]
}
