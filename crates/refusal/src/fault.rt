ghost use Rattle.std.specs.Prelude.{◌≡◌, Some};
ghost use Rattle.refusal.specs.Refusals.{layer_number};
ghost use Rattle.refusal.specs.Lines.{fault_text, fault_line};
ghost use Rattle.refusal.specs.Written.{answer_of, buffer_after};

use crate::refusal::Refusal;
use crate::written::write_text;
use arrayvec::ArrayString;
use std::fmt;

/// The part of the work that refused, with its number.
#[derive(Clone, Copy, PartialEq, Eq)]
pub enum Layer {
    Deck = 1,
    Partition = 2,
    Sheet = 3,
}

impl Layer {
    /// The layer's number.
    // No `From`: beside this name it would be a second spelling of the same number.
    pub fn number(&self) -> u8
        ensures { result ≡ layer_number self.now }
    {
        *self as u8
    }
}

/// Room for a line: `F`, numbers of at most 3, 3 and 20 digits, each behind a space, and a newline.
pub const LINE_ROOM: usize = 31;

/// A refusal, and the layer that gave it.
#[derive(Clone, Copy, PartialEq, Eq)]
pub struct Fault {
    pub layer: Layer,
    pub refusal: Refusal,
}

impl Fault {
    /// Writes the fault's line at the front of `buf`, and answers its length: the byte `F`; a
    /// space and a number in decimal for the layer, the refusal and its place; a newline. Where
    /// the line does not fit, the buffer is left as it was.
    pub fn write_line(&self, buf: &mut [u8]) -> Result<usize, Refusal>
        ensures answer { result ≡ answer_of (fault_line self.now) buf.old }
        ensures after { buf.new ≡ buffer_after (fault_line self.now) buf.old }
    {
        write_text(buf, self.line().as_str())
    }

    /// The fault's line, with its newline.
    // Piece by piece: no proof finds that a `writeln!` of the fault into an `ArrayString` succeeds.
    pub fn line(&self) -> ArrayString<LINE_ROOM>
        ensures { result.bytes ≡ fault_line self.now }
    {
        let mut digits = itoa::Buffer::new();
        let mut line = ArrayString::new();
        line.push_str("F ");
        line.push_str(digits.format(self.layer.number()));
        line.push_str(" ");
        line.push_str(digits.format(self.refusal.number()));
        line.push_str(" ");
        line.push_str(digits.format(self.refusal.place()));
        line.push_str("\n");
        line
    }
}

/// Prints the fault's line without its newline.
impl fmt::Display for Fault {
    ghost output = { λ f. Some (fault_text f) };

    fn fmt<W: fmt::Write>(&self, f: &mut fmt::Formatter<W>) -> fmt::Result {
        let layer = self.layer.number();
        let number = self.refusal.number();
        let place = self.refusal.place();
        write!(f, "F {layer} {number} {place}")
    }
}
