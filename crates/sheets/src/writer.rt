// The writer of sheets: plain numbers beside the lent buffer, and never the buffer itself.
ghost use Rattle.std.specs.Prelude.{◌≡◌, ℕ, ◌+◌, ◌<◌, ◌≤◌, not, List, [], length, Ok, Err};
ghost use Rattle.guesses.specs.Books.{book_lines};
ghost use Rattle.sheets.specs.Bytes.{put};
ghost use Rattle.sheets.specs.Sheets.{section_bytes, section_length};
ghost use Rattle.sheets.specs.Writing.{begun, IsPastEverySheet, IsWithinSheets, add_answer, next_writer, added_writer, added_sheet, no_room, end_trailer, end_bytes, end_length, close_answer, closed_sheet, torn_length, torn_sheet, Written, AddKeeps};
ghost use Rattle.sheets.specs.RoundTrip.{AllReadBack, ClosedReadsBack};

use crate::parts::{count_marked, store_book, store_points, store_section};
use crate::trailer::{NO_LEDGER, Trailer, store_trailer};
use guesses::book::Book;
use ranges::number::RangeNumber;
use ranges::refusal::Refusal;

// The most points, and so the largest guess.
const MOST_POINTS: u16 = 4096;

// The most lines of a ledger section.
const MOST_LINES: usize = 16383;

// The most bytes that a sheet may have: 2^31.
const MOST_BYTES: usize = 2147483648;

// The length so far, and the place and guess of the last ledger section.
// Plain numbers, since the sheet's bytes are the caller's and are lent anew to each call.
// Only `close` and `tear_up` spend a writer.
pub struct SheetWriter {
    len: u32,
    last: u32,
    guess: u16,
}

impl Drop for SheetWriter {
    // No writer that `begin` and `add` make can meet this, so a forgotten sheet is refused before anything runs.
    fn drop(self)
        requires { IsPastEverySheet self }
    {
        let SheetWriter {
            len: _,
            last: _,
            guess: _,
        } = self;
    }
}

// Whether a sheet that ends here fits its buffer and its limit.
fn has_room(sheet: &[u8], end: usize) -> bool
    ensures { result ≡ not (no_room sheet.now end) }
{
    end <= sheet.len() && end <= MOST_BYTES
}

impl SheetWriter {
    pub fn begin() -> SheetWriter
        ensures value { result ≡ begun }
        ensures written { (sheet : List ℕ) → Written result sheet [] }
        ensures held { IsWithinSheets result }
    {
        SheetWriter {
            len: 0,
            last: NO_LEDGER,
            guess: 0,
        }
    }

    // Lays a section behind what is written.
    fn lay_section(&self, sheet: &mut [u8], k: u16, lines: &[RangeNumber])
        requires room { self.now.len + section_length lines.now ≤ length sheet.old }
        requires few { length lines.now ≤ 16383 }
        requires some { 0 < k }
        requires most { k ≤ 4096 }
        ensures bytes { sheet.new ≡ put sheet.old self.now.len (section_bytes k lines.now) }
        ensures written { AddKeeps (Ok tt) self.now sheet.old k lines.now (next_writer self.now k lines.now) sheet.new }
    {
        store_section(sheet, self.len as usize, k, lines);
    }

    // Writes a ledger section behind what is written.
    pub fn add(&mut self, sheet: &mut [u8], k: u16, lines: &[RangeNumber]) -> Result<(), Refusal>
        ensures answer { result ≡ add_answer self.old sheet.old k lines.now }
        ensures writer { self.new ≡ added_writer result self.old k lines.now }
        ensures bytes { sheet.new ≡ added_sheet result self.old sheet.old k lines.now }
        ensures written { AddKeeps result self.old sheet.old k lines.now self.new sheet.new }
        ensures held { IsWithinSheets self.old → IsWithinSheets self.new }
    {
        if k == 0 || k > MOST_POINTS {
            return Err(Refusal::GuessOutOfRange);
        }
        if lines.len() > MOST_LINES {
            return Err(Refusal::LedgerLength);
        }
        let end = self.len as usize + 4 + 2 * lines.len();
        if !has_room(sheet, end) {
            return Err(Refusal::ShortBuffer);
        }
        self.lay_section(sheet, k, lines);
        self.last = self.len;
        self.guess = k;
        self.len = end as u32;
        Ok(())
    }

    // Where the whole sheet would end.
    fn sheet_end(&self, book: &Book, marks: &[u8]) -> usize
        requires { length marks.now ≤ 4096 }
        ensures { result ≡ self.now.len + end_length (book_lines book.now) marks.now }
    {
        self.len as usize + 8 * book.len() + 2 * count_marked(marks) + 16
    }

    fn end_trailer(&self, book: &Book, floor: u16, marks: &[u8]) -> Trailer
        requires short { self.now.len + end_length (book_lines book.now) marks.now ≤ 2147483648 }
        requires few { length marks.now ≤ 4096 }
        ensures { result ≡ end_trailer self.now (book_lines book.now) floor marks.now }
    {
        Trailer {
            book: self.len,
            points: self.len + 8 * book.len() as u32,
            ledger: self.last,
            n: marks.len() as u16,
            floor,
        }
    }

    // Lays the book, the chosen points and the trailer behind the ledgers.
    fn lay_end(&self, sheet: &mut [u8], book: &Book, floor: u16, marks: &[u8])
        requires room { self.now.len + end_length (book_lines book.now) marks.now ≤ length sheet.old }
        requires short { self.now.len + end_length (book_lines book.now) marks.now ≤ 2147483648 }
        requires few { length marks.now ≤ 4096 }
        requires last { floor ≡ self.now.guess }
        ensures bytes { sheet.new ≡ put sheet.old self.now.len (end_bytes self.now (book_lines book.now) floor marks.now) }
        ensures back { AllReadBack (self.now.len + end_length (book_lines book.now) marks.now) self.now sheet.old (book_lines book.now) floor marks.now sheet.new }
    {
        let book_place = self.len as usize;
        let points_place = book_place + 8 * book.len();
        let trailer_place = points_place + 2 * count_marked(marks);
        store_book(sheet, book_place, book);
        store_points(sheet, points_place, marks);
        store_trailer(sheet, trailer_place, self.end_trailer(book, floor, marks));
    }

    // Ends the sheet and answers its length; a refusal gives the writer back.
    pub fn close(
        self,
        sheet: &mut [u8],
        book: &Book,
        floor: u16,
        marks: &[u8],
    ) -> Result<usize, (SheetWriter, Refusal)>
        ensures answer { result ≡ close_answer self sheet.old (book_lines book.now) floor marks.now }
        ensures bytes { sheet.new ≡ closed_sheet result self sheet.old (book_lines book.now) floor marks.now }
        ensures back { ClosedReadsBack result self sheet.old (book_lines book.now) floor marks.now sheet.new }
    {
        if marks.len() > MOST_POINTS as usize {
            return Err((self, Refusal::WrongLength));
        }
        let end = self.sheet_end(book, marks);
        if !has_room(sheet, end) {
            return Err((self, Refusal::ShortBuffer));
        }
        if floor != self.guess {
            return Err((self, Refusal::BadSheet));
        }
        self.lay_end(sheet, book, floor, marks);
        let SheetWriter {
            len: _,
            last: _,
            guess: _,
        } = self;
        Ok(end)
    }

    // Writes 0 over the sheet so far, and answers over how many bytes.
    pub fn tear_up(self, sheet: &mut [u8]) -> usize
        ensures answer { result ≡ torn_length self sheet.old }
        ensures bytes { sheet.new ≡ torn_sheet self sheet.old }
    {
        let SheetWriter {
            len,
            last: _,
            guess: _,
        } = self;
        let end = sheet.len().min(len as usize);
        sheet[0..end].fill(0);
        end
    }
}
