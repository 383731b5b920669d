//! The check of a deck.

ghost use Rattle.std.specs.Prelude.{◌≡◌, ◌+◌, ◌^◌, ◌<◌, ◌∷◌, Ok, MatchResult};
ghost use Rattle.deck.specs.Format.{operand_offset};
ghost use Rattle.deck.specs.Rules.{Unopened, Judged};
ghost use Rattle.deck.specs.Passes.{Ended, Stopped};
ghost use Rattle.deck.specs.Verdicts.{deck_verdict, at_end, transistor_verdict};

use crate::codes::{BEGIN, EDITION};
use crate::commands::Command;
use crate::reader::Commands;
use net::Module;
use record::{Field, Record};
use refusal::Refusal;
use table::MOST_TRANSISTORS;

/// A deck has no more bytes than this.
const MOST_BYTES: usize = 16384;

/// The check of a deck: length first, then begin, then command by command.
pub fn check(bytes: &[u8]) -> Result<(), Refusal>
    ensures value { result ≡ deck_verdict bytes.now }
    ensures rules { Judged bytes.now result }
{
    if bytes.len() > MOST_BYTES {
        return Err(Refusal::TooLong {
            length: bytes.len(),
        });
    }
    let commands = read_begin(bytes)?;
    check_commands(commands)
}

/// What is to be read behind begin and its edition.
fn read_begin(bytes: &[u8]) -> Result<Commands<'_>, Refusal>
    ensures { MatchResult result (λ c. (bytes.now ≡ 0x10 ∷ 1 ∷ c.rest.now) × (c.offset ≡ 2)) (λ x. Unopened bytes.now x) }
{
    let [code, operands @ ..] = bytes else {
        return Err(Refusal::CutShort { length: 0 });
    };
    if *code != BEGIN {
        return Err(Refusal::OutOfOrder { offset: 0 });
    }
    let [edition, commands @ ..] = operands else {
        return Err(Refusal::CutShort { length: 1 });
    };
    if *edition != EDITION {
        return Err(Refusal::OutOfRange { place: 1 });
    }
    Ok(Commands {
        rest: commands,
        offset: 2,
    })
}

/// The check of what stands behind begin, on its own.
fn check_commands(commands: Commands<'_>) -> Result<(), Refusal>
    requires { commands.offset ≡ 2 }
    ensures { MatchResult result (λ _. Ended commands.entry.rest.now) (λ x. Stopped commands.entry.rest.now x) }
{
    let mut left = commands;
    // Counted by hand: the loop ends at end or at the first refusal, and answers with it.
    let mut transistors = 0usize;
    loop {
        let (command, behind) = left.read()?;
        match command {
            Command::Transistor(transistor) => {
                check_transistor(&transistor, left.offset, transistors)?;
                transistors += 1;
            }
            Command::Remark { .. } => {}
            Command::End => return check_end(&behind),
        }
        left = behind;
    }
}

/// The check of one transistor whose command stands at that offset, behind so many others.
fn check_transistor(transistor: &Record, offset: usize, before: usize) -> Result<(), Refusal>
    requires { offset + 17 < 2 ^ 64 }
    ensures { result ≡ transistor_verdict before offset transistor.now (Ok tt) }
{
    if before >= MOST_TRANSISTORS {
        return Err(Refusal::TooManyTransistors { place: offset });
    }
    match Module::try_from(transistor) {
        Ok(_) => Ok(()),
        Err(field) => Err(Refusal::OutOfRange {
            place: offset + 1 + operand_offset(field),
        }),
    }
}

/// Where a field begins among the operands of a transistor.
// The format fixes these numbers.
fn operand_offset(field: Field) -> usize
    ensures value { result ≡ operand_offset field }
    ensures bound { result < 16 }
{
    match field {
        Field::Kind => 0,
        Field::Width => 9,
        Field::Side => 15,
    }
}

/// The check of what stands behind end: nothing may.
fn check_end(behind: &Commands<'_>) -> Result<(), Refusal>
    ensures { result ≡ at_end behind.now.offset behind.now.rest.now }
{
    if behind.rest.is_empty() {
        return Ok(());
    }
    Err(Refusal::OutOfOrder {
        offset: behind.offset,
    })
}
