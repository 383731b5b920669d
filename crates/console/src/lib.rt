//! What the programs share: they read a deck from their input, tell a fault by its line, and end with the status 0 or 1.

#![tactic(auto)]

ghost use Rattle.std.specs.Prelude.{◌≡◌, IfOk, IfSome, IsErr, MatchResult, take};
ghost use Rattle.std.specs.Process.{exit_status};

use refusal::{Fault, Layer, Refusal};
use std::alloc::Global;
use std::io;
use std::io::Read;
use std::process::ExitCode;

/// One byte more than a deck may have, so that an over-long deck is seen.
pub const MOST_READ: u64 = 16385;

/// Reads the input to its end, but no further than an over-long deck is known to be one.
pub fn read_deck<R: Read + Drop>(input: R, alloc: Global) -> io::Result<Vec<u8>>
    ensures { IfOk result (λ deck. IfSome (R.remaining input) (λ bytes. deck.items ≡ take MOST_READ bytes)) }
{
    let mut deck = Vec::new(alloc);
    input.take(MOST_READ).read_to_end(&mut deck)?;
    Ok(deck)
}

/// Prints the fault line, and fails, as the program is to fail then.
// The fault's two parts: who has them would make a fault only for this call.
// By the line and no `println!`: what a value prints is promised only where printing does not fail, the line always.
pub fn tell_fault(rt: &impl Print, layer: Layer, refusal: Refusal) -> io::Result<()>
    ensures { IsErr result }
{
    let line = Fault { layer, refusal }.line();
    rt.print(line.as_str())?;
    Err(io::Error::from(io::ErrorKind::InvalidData))
}

/// The status with which a program ends: 0, or 1 where it failed.
pub fn status(outcome: io::Result<()>) -> ExitCode
    ensures { MatchResult outcome (λ _. exit_status result ≡ 0) (λ _. exit_status result ≡ 1) }
{
    match outcome {
        Ok(()) => ExitCode::SUCCESS,
        Err(_) => ExitCode::FAILURE,
    }
}
