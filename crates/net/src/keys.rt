//! The keys by which a circuit names its nets.

ghost use Rattle.std.specs.Prelude.{◌≡◌, Decides, Some};
ghost use Rattle.net.specs.Nets.{Net, number_net, instance_net};
ghost use Rattle.net.specs.Names.{number_text, instance_text};

use std::fmt;

/// A key names one net. It can be asked only whether another key of its kind names the same net.
pub trait NetKey: Copy {
    // the net that the key names
    ghost net: { Self → Net };

    /// Whether both keys name one net.
    // No `==`: keys that differ can name one net, and an equality would owe three laws where this has one clause.
    fn same(&self, other: &Self) -> bool
        ensures { Decides result (net self.now ≡ net other.now) };
}

/// A number names a net of its own.
#[derive(Clone, Copy)]
pub struct NumberKey(pub u16);

impl NetKey for NumberKey {
    ghost net = { λ k. number_net k.0 };

    fn same(&self, other: &NumberKey) -> bool {
        self.0 == other.0
    }
}

/// The number.
impl fmt::Display for NumberKey {
    ghost output = { λ k. Some (number_text k.0) };

    fn fmt<W: fmt::Write>(&self, f: &mut fmt::Formatter<W>) -> fmt::Result {
        let number = self.0;
        write!(f, "{number}")
    }
}

/// Net numbers below this one are rails.
const RAILS: u16 = 16;

/// A net of one instance of a cell. Net numbers 0 to 15 are rails: each is one net in all instances.
#[derive(Clone, Copy)]
pub struct InstanceKey {
    pub instance: u8,
    pub number: u16,
}

impl NetKey for InstanceKey {
    ghost net = { λ k. instance_net k.instance k.number };

    fn same(&self, other: &InstanceKey) -> bool {
        self.number == other.number && (self.number < RAILS || self.instance == other.instance)
    }
}

/// The number alone for a rail; for any other net the instance, a full stop and the number.
impl fmt::Display for InstanceKey {
    ghost output = { λ k. Some (instance_text k.instance k.number) };

    fn fmt<W: fmt::Write>(&self, f: &mut fmt::Formatter<W>) -> fmt::Result {
        let instance = self.instance;
        let number = self.number;
        if number < RAILS {
            write!(f, "{number}")
        } else {
            write!(f, "{instance}.{number}")
        }
    }
}
