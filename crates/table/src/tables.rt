//! A table of records, with what its check answers.

ghost use Rattle.std.specs.Prelude.{◌≡◌, true, not, map};
ghost use Rattle.std.specs.List.{AllByRecursion, position};
ghost use Rattle.record.specs.Records.{fits, stated};
ghost use Rattle.table.specs.Tables.{table_verdict, told_by};

use net::Module;
use record::Record;
use refusal::Refusal;

/// A circuit has no more transistors than this, in a table and in a deck.
pub const MOST_TRANSISTORS: usize = 256;

/// The records of transistors, with what the check answers of them: up to 256 are accepted. A table that is refused tells nothing.
// A deck has this shape too. One type for both would take a trait for their checks, and be longer than the two.
#[derive(Clone, Copy)]
pub struct Table<'a> {
    records: &'a [Record],
    verdict: Result<(), Refusal>,
    ghost checked: { verdict ≡ table_verdict records.now },
}

impl<'a> Table<'a> {
    /// The table of these records.
    pub fn new(records: &'a [Record]) -> Table<'a>
        ensures { result.records.now ≡ records.now }
    {
        Table {
            records,
            verdict: verdict_of(records),
        }
    }

    /// The records, checked or not.
    pub fn records(&self) -> &'a [Record]
        ensures { result.now ≡ self.now.records.now }
    {
        self.records
    }

    /// What the check of the table answers.
    pub fn check(&self) -> Result<(), Refusal>
        ensures { result ≡ table_verdict self.now.records.now }
    {
        self.verdict
    }

    /// The records that the table tells: none, if its check refuses it.
    pub(crate) fn accepted(&self) -> &'a [Record]
        ensures fit { AllByRecursion (λ r. fits r ≡ true) result.now }
        ensures tells { told_by self.now.verdict self.now.records.now ≡ map stated result.now }
    {
        match self.verdict {
            Ok(()) => self.records,
            Err(_) => &[],
        }
    }
}

/// What the check of a table of these records answers. It refuses more than 256 records first, then the first record with a field out of range.
fn verdict_of(records: &[Record]) -> Result<(), Refusal>
    ensures { result ≡ table_verdict records.now }
{
    if records.len() > MOST_TRANSISTORS {
        return Err(Refusal::TooManyTransistors {
            place: MOST_TRANSISTORS,
        });
    }
    match first_unfit_place(records) {
        Some(place) => Err(Refusal::OutOfRange { place }),
        None => Ok(()),
    }
}

/// Where the first record with a field out of range stands.
fn first_unfit_place(records: &[Record]) -> Option<usize>
    ensures { result ≡ position (λ r. not (fits r)) records.now }
{
    records.iter().position(|r| is_unfit(r))
}

/// Whether a field of the record is out of range.
fn is_unfit(r: &Record) -> bool
    ensures { result ≡ not (fits r.now) }
{
    Module::try_from(r).is_err()
}
