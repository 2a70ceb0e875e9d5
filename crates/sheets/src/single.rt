// A sheet of one ledger in one call.
ghost use Rattle.std.specs.Prelude.{◌≡◌};
ghost use Rattle.guesses.specs.Books.{book_lines};
ghost use Rattle.sheets.specs.Single.{single_answer, single_sheet, SingleReadsBack};

use crate::writer::SheetWriter;
use guesses::book::Book;
use ranges::number::RangeNumber;
use ranges::refusal::Refusal;

// The ledger of k is the last, so k is the floor; where a call refuses, what was written is torn up.
pub fn write_sheet(
    sheet: &mut [u8],
    k: u16,
    lines: &[RangeNumber],
    book: &Book,
    marks: &[u8],
) -> Result<usize, Refusal>
    ensures answer { result ≡ single_answer sheet.old k lines.now (book_lines book.now) marks.now }
    ensures bytes { sheet.new ≡ single_sheet sheet.old k lines.now (book_lines book.now) marks.now }
    ensures back { SingleReadsBack result k lines.now (book_lines book.now) marks.now sheet.new }
{
    let mut writer = SheetWriter::begin();
    if let Err(e) = writer.add(sheet, k, lines) {
        let _torn = writer.tear_up(sheet);
        return Err(e);
    }
    // not by map_err, since of a buffer that its closure writes nothing is known where it is not called
    match writer.close(sheet, book, k, marks) {
        Ok(n) => Ok(n),
        Err((back, e)) => {
            let _torn = back.tear_up(sheet);
            Err(e)
        }
    }
}
