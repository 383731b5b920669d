//! The options of the command line.

ghost use Rattle.std.specs.Prelude.{◌≡◌, ◌↔◌, IsSome, Some, None};
ghost use Rattle.pilelist.specs.Numbers.{Reads};

use layers::WidthRange;
use std::env;
use std::env::Args;
use std::rt::Env;

/// How the program is called.
pub const USAGE: &str =
    "usage: pilelist [--row N] [--fold F] [--class P] [--widths LOW HIGH] [--totals] < deck
  --row N            a row of N instances of the deck
  --fold F           modules in fingers of at most F steps of 10 nm
  --class P          only the class of the module at position P before folding
  --widths LOW HIGH  only widths from LOW to HIGH steps
  --totals           only the line of totals";

/// The layers that are asked for, lowest first, and whether only the totals are to be told.
#[derive(Clone, Copy, Default)]
pub struct Options {
    /// How many instances of the deck stand in a row.
    pub instances: Option<u16>,
    /// The limit of a finger's width.
    pub limit: Option<u16>,
    /// Where a module of the class stands before folding.
    pub class: Option<usize>,
    /// The widths of the modules to keep.
    pub widths: Option<WidthRange>,
    pub only_totals: bool,
}

impl Options {
    /// The options on the command line, or None where it is not understood.
    pub fn given(rt: &(impl Env + AllocGlobal)) -> Option<Options> {
        let mut words = env::args(rt).ok()?;
        let _program = words.next();
        Options::parse(words)
    }

    /// The options that the words give, or None where they are no options. Each is given at most once.
    fn parse(mut words: Args) -> Option<Options> {
        let mut options = Options::default();
        // No `for`: an option takes the words behind it.
        while let Some(word) = words.next() {
            match word.as_str() {
                "--row" => put_once(&mut options.instances, number16(&words.next()?)?)?,
                "--fold" => put_once(&mut options.limit, number16(&words.next()?)?)?,
                "--class" => put_once(&mut options.class, number(&words.next()?)?)?,
                "--widths" => {
                    let lowest = number16(&words.next()?)?;
                    let highest = number16(&words.next()?)?;
                    put_once(&mut options.widths, WidthRange { lowest, highest })?;
                }
                "--totals" if !options.only_totals => options.only_totals = true,
                _ => return None,
            }
        }
        Some(options)
    }
}

/// Gives the option its value, or None where it has one already.
fn put_once<T: Copy>(option: &mut Option<T>, value: T) -> Option<()>
    ensures once { IsSome result ↔ (option.old ≡ None) }
    ensures put { option.new ≡ Some value }
{
    option.replace(value).is_none().then_some(())
}

/// The number that the word writes in decimal, without a sign.
fn number(word: &str) -> Option<usize>
    ensures { Reads 64 word.now result }
{
    if word.starts_with('+') {
        return None;
    }
    word.parse::<usize>().ok()
}

/// The same at 16 bits.
// By `number`: a generic one would owe a contract for each type's `parse`.
fn number16(word: &str) -> Option<u16>
    ensures { Reads 16 word.now result }
{
    u16::try_from(number(word)?).ok()
}
