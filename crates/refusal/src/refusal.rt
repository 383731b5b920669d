//! The reasons for refusing.

/// Why a request was refused. Each reason has a number and a place.
#[derive(Clone, Copy, PartialEq, Eq)]
pub enum Refusal {
    /// 1: a deck above 16,384 bytes. Place: its length.
    TooLong { length: usize },
    /// 2: an unknown command byte. Place: its offset.
    UnknownCommand { offset: usize },
    /// 3: the deck ends inside operands or before its end command. Place: its length.
    CutShort { length: usize },
    /// 4: the first byte is not begin, begin comes again, or a byte follows end. Place: its offset.
    OutOfOrder { offset: usize },
    /// 5: an edition or a field out of range, or side right with pair number 0.
    /// Place: the operand's offset in a deck, the record in a table.
    OutOfRange { place: usize },
    /// 6: a 257th transistor. Place: the command's offset in a deck, 256 in a table.
    TooManyTransistors { place: usize },
    /// 11: the partition has not read its circuit.
    Unread,
    /// 12: the partition has read its circuit already.
    LoadedAlready,
    /// 13: not 1 <= Cint <= Cext <= 65,535.
    BadCapacitances,
    /// 14: more than 256 modules. Place: the count.
    TooManyModules { count: usize },
    /// 15: a module of another class than that of position 0. Place: its position.
    OtherClass { position: usize },
    /// 16: paired modules that are no sound twins. Place: the position.
    BadTwin { position: usize },
    /// 17: no such position, stack or place. Place: the number given.
    NoSuch { number: usize },
    /// 18: the module is withdrawn already. Place: its position.
    AlreadyWithdrawn { position: usize },
    /// 19: the module is not withdrawn. Place: its position.
    NotWithdrawn { position: usize },
    /// 20: an end that is neither source nor drain. Place: the end given.
    BadEnd { end: usize },
    /// 21: a reading or a sheet where there is no cover.
    NoCover,
    /// 31: the buffer is too short. Place: the length needed.
    TooShort { needed: usize },
}
