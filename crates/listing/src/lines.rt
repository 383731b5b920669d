//! The lines of modules.

ghost use Rattle.std.specs.Prelude.{Some};
ghost use Rattle.listing.specs.Texts.{line_text};

use crate::keys::NamedKey;
use crate::words::PairWords;
use net::Module;
use std::fmt;

/// A module and its position.
#[derive(Copy)]
#[derive_where(Clone; K: Copy)]
pub struct ModuleLine<K> {
    pub position: usize,
    pub module: Module<K>,
}

impl<K: NamedKey> fmt::Display for ModuleLine<K> {
    ghost output = { λ l. Some (line_text K.NamedKey.name l.position l.module) };

    fn fmt<W: fmt::Write>(&self, f: &mut fmt::Formatter<W>) -> fmt::Result {
        let ModuleLine { position, module } = *self;
        let Module {
            kind,
            body,
            gate,
            source,
            drain,
            width,
            tag,
            pairing,
        } = module;
        let steps = width.steps();
        let pair = PairWords(pairing);
        write!(
            f,
            "M{position} {kind} body {body} gate {gate} source {source} drain {drain} width {steps} tag {tag} {pair}"
        )
    }
}
