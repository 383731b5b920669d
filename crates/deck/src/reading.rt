//! Reading a deck: its commands, and the deck as a circuit.

ghost use Rattle.std.specs.Prelude.{◌≡◌, length, drop};
ghost use Rattle.deck.specs.Lawfuls.{deck_lawful};
ghost use Rattle.deck.specs.Verdicts.{entries_in, commands_offset, deck_entries, deck_tells, deck_verdict};
ghost use Rattle.deck.specs.Reading.{Reads, told};
ghost use Rattle.std.specs.Iterator.{at_most};

use crate::commands::Command;
use crate::decks::Deck;
use crate::reader::Commands;
use circuit::Circuit;
use net::{Module, NumberKey};

/// The transistors and remarks before end, one by one.
impl<'a> Iterator for Commands<'a> {
    type Item = Command<'a>;

    ghost next_gives = { λ s r t. Reads s.rest.now s.offset r t.rest.now t.offset };

    ghost remaining = { λ s. at_most (length (entries_in 0 s.rest.now)) };

    #[inline]
    fn next(&mut self) -> Option<Command<'a>> {
        // No `.ok()?`: it is as long, and its proof longer.
        let Ok((command, behind)) = self.read() else {
            return None;
        };
        if let Command::End = command {
            return None;
        }
        *self = behind;
        Some(command)
    }
}

impl<'a> Deck<'a> {
    /// The commands between begin and end, to be read one by one: none, if the check refused the deck.
    pub fn commands(&self) -> Commands<'a>
        ensures entries { entries_in 0 result.rest.now ≡ deck_entries (deck_verdict self.now.bytes.now) self.now.bytes.now }
        ensures start { result.offset ≡ commands_offset (deck_verdict self.now.bytes.now) self.now.bytes.now }
        ensures part { result.rest.now ≡ drop result.offset self.now.bytes.now }
    {
        let start = match self.check() {
            Ok(()) => 2,
            Err(_) => self.bytes.len(),
        };
        Commands {
            rest: &self.bytes[start..],
            offset: start,
        }
    }
}

impl<'a> Circuit for Deck<'a> {
    type Key = NumberKey;

    type Cursor = Commands<'a>;

    ghost list = { λ d. deck_tells d.verdict d.bytes.now };

    ghost rest = { λ d c. told (entries_in 0 c.rest.now) };

    ghost lawful = { λ d. deck_lawful d.verdict d.bytes.now d.checked };

    fn begin(&self) -> Commands<'a> {
        self.commands()
    }

    #[inline]
    fn next(&self, cursor: &mut Commands<'a>) -> Option<Module<NumberKey>> {
        // Neither `for` nor `find_map`: a proof does not learn of them where the cursor stands at the end.
        while let Some(command) = cursor.next() {
            if let Command::Transistor(transistor) = command {
                if let Ok(m) = Module::try_from(&transistor) {
                    return Some(m);
                }
            }
        }
        None
    }
}
