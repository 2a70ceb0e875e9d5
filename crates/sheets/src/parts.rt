// The parts of a sheet, each stored at its place.
ghost use Rattle.std.specs.Prelude.{◌≡◌, ◌+◌, ◌*◌, ◌≤◌, length};
ghost use Rattle.guesses.specs.Books.{book_lines};
ghost use Rattle.sheets.specs.Bytes.{Fit, bytes16, stored, numbers_bytes};
ghost use Rattle.sheets.specs.Sheets.{lines_bytes, section_bytes, section_length, LinesFit, book_bytes, BookFits, chosen_points};

use crate::bytes::store;
use crate::line::line_bytes;
use guesses::book::Book;
use ranges::number::RangeNumber;

// A function, since only of a parameter it is known that its number has two bytes.
fn number_bytes(x: u16) -> [u8; 2]
    ensures bytes { result ≡ bytes16 x }
    ensures fit { Fit x }
{
    x.to_le_bytes()
}

fn store_lines(sheet: &mut [u8], at: usize, lines: &[RangeNumber])
    requires { at + 2 * length lines.now ≤ length sheet.old }
    ensures bytes { sheet.new ≡ stored sheet.old at (lines_bytes lines.now) }
    ensures fit { LinesFit lines.now (length lines.now) }
{
    // by place, since what is written through a zip with `chunks_exact_mut` stays unknown to a proof
    for (i, line) in lines.iter().enumerate() {
        store(sheet, at + 2 * i, &number_bytes(line.0));
    }
}

// A ledger section: its guess, how many lines it has, and the lines.
pub(crate) fn store_section(sheet: &mut [u8], at: usize, k: u16, lines: &[RangeNumber])
    requires room { at + section_length lines.now ≤ length sheet.old }
    requires few { length lines.now ≤ 16383 }
    ensures bytes { sheet.new ≡ stored sheet.old at (section_bytes k lines.now) }
    ensures fit { LinesFit lines.now (length lines.now) }
{
    store(sheet, at, &k.to_le_bytes());
    store(sheet, at + 2, &(lines.len() as u16).to_le_bytes());
    store_lines(sheet, at + 4, lines);
}

pub(crate) fn store_book(sheet: &mut [u8], at: usize, book: &Book)
    requires { at + 8 * length (book_lines book.now) ≤ length sheet.old }
    ensures bytes { sheet.new ≡ stored sheet.old at (book_bytes (book_lines book.now)) }
    ensures fit { BookFits (book_lines book.now) (length (book_lines book.now)) }
{
    // by place, as in `store_lines`
    for (i, line) in book.lines().iter().enumerate() {
        store(sheet, at + 8 * i, &line_bytes(*line));
    }
}

// How many points are marked: their byte is 1. The marks stay a slice with their length as a clause, here and in the writer: a type around it would stand in the same signatures and add its field to each clause.
#[tactic(auto, using(crate::proofs::Points::counted_marks))]
pub(crate) fn count_marked(marks: &[u8]) -> usize
    requires { length marks.now ≤ 4096 }
    ensures value { result ≡ length (chosen_points marks.now) }
    ensures most { result ≤ 4096 }
{
    marks.iter().filter(|mark| **mark == 1).count()
}

// The numbers of the marked points, ascending; the next place is counted, since a mark's index says nothing of it.
pub(crate) fn store_points(sheet: &mut [u8], at: usize, marks: &[u8])
    requires room { at + 2 * length (chosen_points marks.now) ≤ length sheet.old }
    requires few { length marks.now ≤ 4096 }
    ensures { sheet.new ≡ stored sheet.old at (numbers_bytes (chosen_points marks.now)) }
{
    let mut next = at;
    for (p, mark) in marks.iter().enumerate() {
        if *mark == 1 {
            store(sheet, next, &number_bytes(p as u16));
            next += 2;
        }
    }
}
