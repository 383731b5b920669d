//! The reader of the commands behind begin.

ghost use Rattle.std.specs.Prelude.{◌≡◌, ◌+◌, ◌^◌, ◌<◌, ◌++◌, length, MatchResult};
ghost use Rattle.refusal.specs.declared.refusal.Refusal.TheVariants.{CutShort};
ghost use Rattle.deck.specs.Rules.{Unreadable};
ghost use Rattle.deck.specs.Commands.{Gives};

use crate::codes::{BEGIN, END, REMARK, TRANSISTOR};
use crate::commands::{Command, record_of};
use refusal::Refusal;

/// What is still to be read of a deck, and the offset at which that stands in it.
#[derive(Clone, Copy)]
pub struct Commands<'a> {
    pub(crate) rest: &'a [u8],
    pub(crate) offset: usize,
    ghost room: { offset + length rest.now < 2 ^ 64 },
}

impl<'a> Commands<'a> {
    /// The command at the front, and what is still to be read behind it.
    #[inline]
    pub(crate) fn read(&self) -> Result<(Command<'a>, Commands<'a>), Refusal>
        ensures { MatchResult result (λ p. Gives self.now.rest.now self.now.offset p.0 p.1.rest.now p.1.offset) (λ x. Unreadable self.now.offset self.now.rest.now x) }
    {
        let offset = self.offset;
        let [code, operands @ ..] = self.rest else {
            return Err(Refusal::CutShort { length: offset });
        };
        let behind = Commands {
            rest: operands,
            offset: offset + 1,
        };
        match *code {
            BEGIN => Err(Refusal::OutOfOrder { offset }),
            TRANSISTOR => {
                let (bytes, rest) = behind.take_operands()?;
                Ok((Command::Transistor(record_of(bytes)), rest))
            }
            REMARK => {
                let (bytes, rest) = behind.take_operands()?;
                let remark = Command::Remark {
                    offset: behind.offset,
                    bytes,
                };
                Ok((remark, rest))
            }
            END => Ok((Command::End, behind)),
            _ => Err(Refusal::UnknownCommand { offset }),
        }
    }

    /// The 16 operand bytes at the front, and what is still to be read behind them.
    fn take_operands(&self) -> Result<(&'a [u8; 16], Commands<'a>), Refusal>
        ensures { MatchResult result
            (λ p. (self.now.rest.now ≡ p.0.now ++ p.1.rest.now) × (length p.0.now ≡ 16) × (p.1.offset ≡ self.now.offset + 16))
            (λ x. (length self.now.rest.now < 16) × (x ≡ CutShort (self.now.offset + length self.now.rest.now))) }
    {
        let Some((bytes, rest)) = self.rest.split_first_chunk::<16>() else {
            return Err(Refusal::CutShort {
                length: self.offset + self.rest.len(),
            });
        };
        let behind = Commands {
            rest,
            offset: self.offset + 16,
        };
        Ok((bytes, behind))
    }
}
