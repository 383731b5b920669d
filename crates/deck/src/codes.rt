//! The bytes that a deck's commands begin with. The format fixes them; `Command` is what they mean.

/// Begin, which opens a deck.
pub const BEGIN: u8 = 0x10;

/// The edition that stands behind begin.
pub const EDITION: u8 = 1;

/// A transistor.
pub const TRANSISTOR: u8 = 0x20;

/// A remark.
pub const REMARK: u8 = 0x30;

/// End, which closes a deck.
pub const END: u8 = 0x7F;
