// An accepted sheet: hands out its parts as they lie in it.
ghost use Rattle.std.specs.Prelude.{◌≡◌, ◌*◌, ◌/◌, true, length};
ghost use Rattle.sheets.specs.Bytes.{get16};
ghost use Rattle.sheets.specs.Lines.{verdicts_stand, line_in, point_in, range_in, if_below};

use crate::bytes::piece;
use crate::line::line_from;
use guesses::book::GuessLine;
use ranges::number::{PointNumber, RangeNumber};

// The parts of an accepted sheet.
#[derive(Clone, Copy)]
pub struct Sheet<'a> {
    pub(crate) book: &'a [u8],
    pub(crate) points: &'a [u8],
    pub(crate) ledger: &'a [u8],
    pub(crate) n: u16,
    pub(crate) floor: u16,
    ghost verdicts: { verdicts_stand book.now ≡ true },
}

// Number i of a part of numbers.
fn number_at(numbers: &[u8], i: usize) -> Option<u16>
    ensures { result ≡ if_below i (length numbers.now / 2) (get16 numbers.now (2 * i)) }
{
    piece(numbers, i).map(|number| u16::from_le_bytes(*number))
}

impl Sheet<'_> {
    // How many lines the book has.
    pub fn book_len(&self) -> usize
        ensures { result ≡ length self.now.book.now / 8 }
    {
        self.book.len() / 8
    }

    pub fn book_line(&self, i: usize) -> Option<GuessLine>
        ensures { result ≡ if_below i (length self.now.book.now / 8) (line_in self.now.book.now i) }
    {
        line_from(piece(self.book, i)?).ok()
    }

    // How many points are chosen.
    pub fn point_count(&self) -> usize
        ensures { result ≡ length self.now.points.now / 2 }
    {
        self.points.len() / 2
    }

    pub fn point(&self, i: usize) -> Option<PointNumber>
        ensures { result ≡ if_below i (length self.now.points.now / 2) (point_in self.now.points.now i) }
    {
        number_at(self.points, i).map(PointNumber)
    }

    // How many lines the last ledger has.
    pub fn ledger_len(&self) -> usize
        ensures { result ≡ length self.now.ledger.now / 2 }
    {
        self.ledger.len() / 2
    }

    pub fn ledger_line(&self, i: usize) -> Option<RangeNumber>
        ensures { result ≡ if_below i (length self.now.ledger.now / 2) (range_in self.now.ledger.now i) }
    {
        number_at(self.ledger, i).map(RangeNumber)
    }

    // How many points there are.
    pub fn n(&self) -> u16
        ensures { result ≡ self.now.n }
    {
        self.n
    }

    // The guess of the last ledger, 0 without one.
    pub fn floor(&self) -> u16
        ensures { result ≡ self.now.floor }
    {
        self.floor
    }
}
