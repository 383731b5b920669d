//! Reads a deck from standard input, checks it, and lists the pile that the options make of it.

#![tactic(auto)]

use crate::options::Options;
use crate::piles::list_layers;
use console::{read_deck, status, tell_fault};
use deck::Deck;
use refusal::Layer;
use row::Row;
use std::io;
use std::process::ExitCode;
use std::rt::Env;

mod lists;
mod options;
mod piles;

/// Ends with the status 0, or 1 after a fault or the usage and where reading or printing failed.
fn main(rt: HostRuntime) -> ExitCode {
    status(list_input(&rt))
}

/// Lists the pile of the deck on standard input, or tells its fault, or how the program is called.
fn list_input(rt: &(impl Env + Input + Print + Eprint + AllocGlobal)) -> io::Result<()> {
    let Some(options) = Options::given(rt) else {
        return tell_usage(rt);
    };
    let bytes = read_deck(rt.reader(), rt.alloc())?;
    let deck = Deck::new(&bytes);
    match deck.check() {
        Ok(()) => list_deck(rt, deck, options),
        Err(refusal) => tell_fault(rt, Layer::Deck, refusal),
    }
}

/// Lists the pile of the deck, or of a row of it.
fn list_deck(rt: &impl Print, deck: Deck<'_>, options: Options) -> io::Result<()> {
    match options.instances {
        None => list_layers(rt, &deck, options),
        Some(instances) => list_layers(rt, &Row::new(deck, instances), options),
    }
}

/// Says on standard error how the program is called, and fails.
fn tell_usage(rt: &impl Eprint) -> io::Result<()> {
    rt.eprintln(options::USAGE)?;
    Err(io::Error::from(io::ErrorKind::InvalidInput))
}
