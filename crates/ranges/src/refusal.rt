ghost use Rattle.std.specs.Prelude.{◌≡◌, Some};
ghost use Rattle.ranges.specs.Refusals.{number, returned_with, answer, reason};

use crate::number::RangeNumber;
use std::error::Error;
use std::fmt;

// Why a call says no: a case for each cause, in the order of their numbers.
#[derive(Clone, Copy, Debug, PartialEq, Eq)]
pub enum Refusal {
    CountAboveLimit,
    CoordinateBeyondLimits,
    Reversed,
    RunBegun,
    EmptyRange(RangeNumber),
    RunBlank,
    OtherSpace,
    WrongLength,
    GuessOpen,
    NoGuessOpen,
    GuessOutOfRange,
    GuessNotAboveFloor,
    BookFull,
    LedgerLength,
    ShortScratch,
    WrongTotal,
    ShortBuffer,
    BadSheet,
}

impl Refusal {
    // The number that the rules know a refusal by; a match, since a case with a range in it has no discriminant of its own.
    pub fn number(&self) -> u8
        ensures { result ≡ number self.now }
    {
        match self {
            Refusal::CountAboveLimit => 1,
            Refusal::CoordinateBeyondLimits => 2,
            Refusal::Reversed => 3,
            Refusal::RunBegun => 4,
            Refusal::EmptyRange(_) => 5,
            Refusal::RunBlank => 6,
            Refusal::OtherSpace => 7,
            Refusal::WrongLength => 8,
            Refusal::GuessOpen => 9,
            Refusal::NoGuessOpen => 10,
            Refusal::GuessOutOfRange => 11,
            Refusal::GuessNotAboveFloor => 12,
            Refusal::BookFull => 13,
            Refusal::LedgerLength => 14,
            Refusal::ShortScratch => 15,
            Refusal::WrongTotal => 16,
            Refusal::ShortBuffer => 17,
            Refusal::BadSheet => 18,
        }
    }

    // The range that a refusal is returned with: only an empty range names one.
    pub fn range(&self) -> Option<RangeNumber>
        ensures { result ≡ returned_with self.now }
    {
        match self {
            Refusal::EmptyRange(j) => Some(*j),
            _ => None,
        }
    }
}

impl fmt::Display for Refusal {
    ghost output = { λ e. Some (reason e) };

    fn fmt<W: fmt::Write>(&self, f: &mut fmt::Formatter<W>) -> fmt::Result {
        f.write_str(match self {
            Refusal::CountAboveLimit => "too many points or ranges",
            Refusal::CoordinateBeyondLimits => "a coordinate beyond its limits",
            Refusal::Reversed => "reversed ends or descending points",
            Refusal::RunBegun => "the run is begun already",
            Refusal::EmptyRange(_) => "a range holds no point",
            Refusal::RunBlank => "the run is blank",
            Refusal::OtherSpace => "the space is not the run's",
            Refusal::WrongLength => "a buffer has the wrong length",
            Refusal::GuessOpen => "a guess is open",
            Refusal::NoGuessOpen => "no guess is open",
            Refusal::GuessOutOfRange => "the guess is out of range",
            Refusal::GuessNotAboveFloor => "the guess is not above the floor",
            Refusal::BookFull => "the book is full",
            Refusal::LedgerLength => "the ledger has the wrong length",
            Refusal::ShortScratch => "the scratch is too short",
            Refusal::WrongTotal => "the total is wrong",
            Refusal::ShortBuffer => "the buffer is too short",
            Refusal::BadSheet => "the sheet is not accepted",
        })
    }
}

impl Error for Refusal {}

// The number that a call answers, whatever else it gives: 0 where it accepts.
pub fn answer_number<T>(r: &Result<T, Refusal>) -> u8
    ensures { result ≡ answer r.now }
{
    match r {
        Ok(_) => 0,
        Err(e) => e.number(),
    }
}
