//! A transistor as the bytes of a deck state it, in plain numbers.

ghost use Rattle.std.specs.Prelude.{◌≡◌, ◌<◌, true, false, MatchResult};
ghost use Rattle.net.specs.Mods.{number_told, pair_of, side_of};
ghost use Rattle.net.specs.Numbers.{side_of_number};
ghost use Rattle.record.specs.declared.field.Field.TheVariants.{Side as SideField};
ghost use Rattle.record.specs.Records.{ReadsRecord, fits, side_fits, stated};

use crate::field::Field;
use net::{Kind, Module, NumberKey, Pairing, Side, Width};
use std::num::NonZeroU16;

/// The fields of a transistor as numbers, some of which may be out of range.
// Numbers and no enums: a deck or a caller may state any, and the check is to name the field that is out of range.
#[derive(Clone, Copy)]
pub struct Record {
    /// 0 for n-channel, 1 for p-channel
    pub kind: u8,
    pub body: u16,
    pub gate: u16,
    pub source: u16,
    pub drain: u16,
    /// 1 to 4,095, in steps of 10 nm
    pub width: u16,
    pub tag: u16,
    /// 0 for unpaired
    pub pair: u16,
    /// 0 for left, 1 for right; 0 where the pair number is 0
    pub side: u8,
}

/// The module that the record states, or else its first field that is out of range.
impl TryFrom<&Record> for Module<NumberKey> {
    type Error = Field;

    ghost try_from_gives = { λ d r. ReadsRecord d.now r };

    fn try_from(transistor: &Record) -> Result<Module<NumberKey>, Field> {
        // By `let`: only so a proof knows that 16 bits hold a number that is copied from behind a reference.
        let tag = transistor.tag;
        Ok(Module {
            kind: Kind::try_from(transistor.kind)?,
            body: NumberKey(transistor.body),
            gate: NumberKey(transistor.gate),
            source: NumberKey(transistor.source),
            drain: NumberKey(transistor.drain),
            width: Width::new(transistor.width).ok_or(Field::Width)?,
            tag,
            pairing: pairing_of(transistor.pair, transistor.side)?,
        })
    }
}

/// The record that states that module.
impl From<Module<NumberKey>> for Record {
    ghost from_gives = { λ m r. (fits r ≡ true) × (stated r ≡ number_told m) };

    fn from(m: Module<NumberKey>) -> Record {
        let (pair, side) = pairing_numbers(m.pairing);
        Record {
            kind: m.kind.into(),
            body: m.body.0,
            gate: m.gate.0,
            source: m.source.0,
            drain: m.drain.0,
            width: m.width.steps(),
            tag: m.tag,
            pair,
            side,
        }
    }
}

/// The pairing of that pair number and that side.
// No `TryFrom`: the two numbers have no type of their own in a record.
fn pairing_of(pair: u16, side: u8) -> Result<Option<Pairing>, Field>
    ensures { MatchResult result (λ p. (pair < 65536) × (side_fits pair side ≡ true) × (pair_of p ≡ pair) × (side_of p ≡ side_of_number side)) (λ f. (side_fits pair side ≡ false) × (f ≡ SideField)) }
{
    let side = Side::try_from(side)?;
    match NonZeroU16::new(pair) {
        Some(number) => Ok(Some(Pairing { number, side })),
        None if side == Side::Left => Ok(None),
        None => Err(Field::Side),
    }
}

/// The pair number and the number of the side of that pairing.
// No `From`, for the same reason.
fn pairing_numbers(pairing: Option<Pairing>) -> (u16, u8)
    ensures ranges { (result.0 < 65536) × (side_fits result.0 result.1 ≡ true) }
    ensures value { (result.0 ≡ pair_of pairing) × (side_of_number result.1 ≡ side_of pairing) }
{
    match pairing {
        None => (0, 0),
        Some(Pairing { number, side }) => (number.get(), side.into()),
    }
}
