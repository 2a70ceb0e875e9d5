// The finished job whose sheet is damaged: its ledger, book and marks.
use guesses::book::{Book, GuessLine, Verdict};
use ranges::number::RangeNumber;
use sheets::single::write_sheet;
use sheets::writer::SheetWriter;

// Ledger at 0, book at 22, points at 38, trailer at 42.
pub static WORKED: [u8; 58] = [
    1, 0, 9, 0, 0, 0, 1, 0, 0, 0, 1, 0, 0, 0, 1, 0, 0, 0, 1, 0, 0, 0, 1, 0, 9, 0, 2, 0, 0, 0, 2, 0,
    0, 0, 1, 0, 2, 0, 1, 0, 3, 0, 22, 0, 0, 0, 38, 0, 0, 0, 0, 0, 0, 0, 4, 0, 1, 0,
];

pub static LEDGER: [RangeNumber; 9] = [
    RangeNumber(0),
    RangeNumber(1),
    RangeNumber(0),
    RangeNumber(1),
    RangeNumber(0),
    RangeNumber(1),
    RangeNumber(0),
    RangeNumber(1),
    RangeNumber(0),
];

pub fn book() -> Book {
    let mut book = Book::new();
    let _first = book.add(GuessLine {
        k: 1,
        doublings: 9,
        verdict: Verdict::RuledOut,
    });
    let _second = book.add(GuessLine {
        k: 2,
        doublings: 0,
        verdict: Verdict::Hit(2),
    });
    book
}

// Marks the points 1 and 3, as far as there are so many.
pub fn mark(marks: &mut [u8]) {
    for p in [1, 3] {
        if let Some(mark) = marks.get_mut(p) {
            *mark = 1;
        }
    }
}

// A begun sheet with the ledger once for each guess.
pub fn begun(sheet: &mut [u8], guesses: &[u16]) -> SheetWriter {
    let mut writer = SheetWriter::begin();
    for k in guesses {
        let _added = writer.add(sheet, *k, &LEDGER);
    }
    writer
}

// Whether a buffer is still as it was made, every byte 9.
pub fn untouched(buffer: &[u8]) -> bool {
    buffer.iter().all(|byte| *byte == 9)
}

pub fn word(kept: bool) -> &'static str {
    if kept { "kept" } else { "written" }
}

// What is damaged later is what the writer writes.
pub fn written_anew(rt: &HostRuntime) -> anyhow::Result<()> {
    let mut sheet = [9u8; 58];
    let len = write_sheet(&mut sheet, 1, &LEDGER, &book(), &[0, 1, 0, 1]).unwrap_or(0);
    let same = if sheet == WORKED { "same" } else { "differs" };
    println!(rt; "worked sheet written anew: {len}, {same}")?;
    Ok(())
}
