//! A module: one finger of one transistor.

ghost use Rattle.std.specs.Prelude.{◌≡◌, ◌↔◌, IsTrue, Some, nat_lt, true};
ghost use Rattle.net.specs.Mods.{pair_of, meaning};
ghost use Rattle.net.specs.Classes.{SameClass, same_class};
ghost use Rattle.net.specs.Numbers.{ReadsKind, ReadsSide, kind_fits, kind_of_number, side_number_fits, side_of_number};
ghost use Rattle.net.specs.Texts.{kind_text, side_text};

use crate::keys::NetKey;
use crate::widths::Width;
use std::alloc::AllocError;
use std::fmt;
use std::num::NonZeroU16;

/// The kind of channel.
#[derive(Clone, Copy, PartialEq, Eq)]
pub enum Kind {
    NChannel = 0,
    PChannel = 1,
}

/// A number that stands for no kind.
#[derive(Clone, Copy, PartialEq, Eq)]
pub struct UnknownKind(pub u8);

// The same three impls stand at `Side`: an impl of one of std's traits is for one type.
impl TryFrom<u8> for Kind {
    type Error = UnknownKind;

    ghost try_from_gives = { ReadsKind };

    fn try_from(number: u8) -> Result<Kind, UnknownKind> {
        match number {
            0 => Ok(Kind::NChannel),
            1 => Ok(Kind::PChannel),
            _ => Err(UnknownKind(number)),
        }
    }
}

impl From<Kind> for u8 {
    ghost from_gives = { λ k n. (kind_fits n ≡ true) × (kind_of_number n ≡ k) };

    fn from(kind: Kind) -> u8 {
        kind as u8
    }
}

impl fmt::Display for Kind {
    ghost output = { λ k. Some (kind_text k) };

    fn fmt<W: fmt::Write>(&self, f: &mut fmt::Formatter<W>) -> fmt::Result {
        f.write_str(match self {
            Kind::NChannel => "n-channel",
            Kind::PChannel => "p-channel",
        })
    }
}

/// The side of a matched pair on which a module stands.
#[derive(Clone, Copy, PartialEq, Eq)]
pub enum Side {
    Left = 0,
    Right = 1,
}

/// A number that stands for no side.
#[derive(Clone, Copy, PartialEq, Eq)]
pub struct UnknownSide(pub u8);

impl TryFrom<u8> for Side {
    type Error = UnknownSide;

    ghost try_from_gives = { ReadsSide };

    fn try_from(number: u8) -> Result<Side, UnknownSide> {
        match number {
            0 => Ok(Side::Left),
            1 => Ok(Side::Right),
            _ => Err(UnknownSide(number)),
        }
    }
}

impl From<Side> for u8 {
    ghost from_gives = { λ s n. (side_number_fits n ≡ true) × (side_of_number n ≡ s) };

    fn from(side: Side) -> u8 {
        side as u8
    }
}

impl fmt::Display for Side {
    ghost output = { λ s. Some (side_text s) };

    fn fmt<W: fmt::Write>(&self, f: &mut fmt::Formatter<W>) -> fmt::Result {
        f.write_str(match self {
            Side::Left => "left",
            Side::Right => "right",
        })
    }
}

/// The matched pair to which a module belongs, and the side of it on which the module stands.
#[derive(Clone, Copy, PartialEq, Eq)]
pub struct Pairing {
    pub number: NonZeroU16,
    pub side: Side,
}

/// One finger of one transistor, its nets named by keys. The tag is carried along.
#[derive(Copy)]
pub struct Module<K> {
    pub kind: Kind,
    pub body: K,
    pub gate: K,
    pub source: K,
    pub drain: K,
    pub width: Width,
    pub tag: u16,
    pub pairing: Option<Pairing>,
}

// Written out: a derive would clone each key, of which a `Clone` of the caller's may fail or give another.
impl<K: Copy> Clone for Module<K> {
    ghost is_clone = { λ x y. y ≡ x };

    ghost is_infallible = { λ _. Unit {0} };

    fn clone(&self) -> Result<Module<K>, AllocError> {
        Ok(*self)
    }
}

impl<K> Module<K> {
    /// Whether the module belongs to a matched pair.
    pub fn is_paired(&self) -> bool
        ensures { result ≡ nat_lt 0 (pair_of self.now.pairing) }
    {
        self.pairing.is_some()
    }
}

impl<K: NetKey> Module<K> {
    /// Whether both modules are of one class: of one kind, on one body net, and both paired or both not.
    // No `==`: modules of one class may differ in all else.
    pub fn same_class(&self, other: &Module<K>) -> bool
        ensures test { result ≡ same_class (meaning K.NetKey.net self.now) (meaning K.NetKey.net other.now) }
        ensures class { IsTrue result ↔ SameClass (meaning K.NetKey.net self.now) (meaning K.NetKey.net other.now) }
    {
        self.kind == other.kind
            && self.body.same(&other.body)
            && self.is_paired() == other.is_paired()
    }
}
