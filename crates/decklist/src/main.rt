//! Reads a deck from standard input, checks it and lists its transistors.

#![tactic(auto)]

use console::{read_deck, status, tell_fault};
use deck::{Command, Deck};
use listing::list_modules;
use refusal::Layer;
use std::io;
use std::process::ExitCode;

/// Ends with the status 0, or 1 after a fault and where reading or printing failed.
fn main(rt: HostRuntime) -> ExitCode {
    status(list_input(&rt))
}

/// Lists the deck on standard input, or tells its fault.
// `pilelist` begins so too: one function for both would take a closure and the condition that it may be called.
fn list_input(rt: &(impl Input + Print + AllocGlobal)) -> io::Result<()> {
    let bytes = read_deck(rt.reader(), rt.alloc())?;
    let deck = Deck::new(&bytes);
    match deck.check() {
        Ok(()) => list(rt, &deck, bytes.len()),
        Err(refusal) => tell_fault(rt, Layer::Deck, refusal),
    }
}

/// Prints a line for each transistor, and then what the deck of so many bytes has.
// The number of bytes is the input's, which a deck is not asked for.
fn list(rt: &impl Print, deck: &Deck<'_>, bytes: usize) -> io::Result<()> {
    let transistors = list_modules(rt, deck)?.modules;
    let remarks = deck
        .commands()
        .filter(|command| matches!(command, Command::Remark { .. }))
        .count();
    println!(rt; "{transistors} transistors, {remarks} remarks, {bytes} bytes")
}
