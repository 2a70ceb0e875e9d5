// The sheet and the listing of a finished job: written, read back, and a begun sheet torn up.
use crate::show::show_line;
use anyhow::Context;
use guesses::book::Book;
use listings::listing::write_listing;
use ranges::number::RangeNumber;
use sheets::reader::{Sheet, read_sheet};
use sheets::single::write_sheet;
use sheets::writer::SheetWriter;

pub fn show_listing(
    rt: &HostRuntime,
    book: &Book,
    floor: u16,
    marks: &[u8; 4],
) -> anyhow::Result<()> {
    let mut text = [0u8; 256];
    let len = write_listing(4, 2, book, floor, marks, &mut text)?;
    let listing = text
        .get(..len)
        .context("the listing is longer than its buffer")?;
    rt.print(std::str::from_utf8(listing)?)?;
    Ok(())
}

// Writes the sheet with the ledger of guess 1, prints its length and trailer, and reads it back.
pub fn show_sheet(
    rt: &HostRuntime,
    lines: &[RangeNumber],
    book: &Book,
    marks: &[u8; 4],
) -> anyhow::Result<()> {
    let mut buffer = [0u8; 128];
    let len = write_sheet(&mut buffer, 1, lines, book, marks)?;
    println!(rt; "sheet of {len} bytes")?;
    let sheet = buffer
        .get(..len)
        .context("the sheet does not fit its buffer")?;
    let trailer = sheet
        .last_chunk::<16>()
        .context("the sheet has no trailer")?;
    show_trailer(rt, trailer)?;
    read_back(rt, sheet)
}

fn show_trailer(rt: &HostRuntime, trailer: &[u8; 16]) -> anyhow::Result<()> {
    print!(rt; "trailer")?;
    for byte in trailer {
        print!(rt; " {byte:02x}")?;
    }
    println!(rt; "")?;
    Ok(())
}

fn read_back(rt: &HostRuntime, bytes: &[u8]) -> anyhow::Result<()> {
    let sheet = read_sheet(bytes)?;
    println!(rt; "read back: points {}, floor {}", sheet.n(), sheet.floor())?;
    show_parts(rt, &sheet)
}

fn show_parts(rt: &HostRuntime, sheet: &Sheet<'_>) -> anyhow::Result<()> {
    let lines = (0..sheet.book_len()).filter_map(|i| sheet.book_line(i));
    for (i, line) in lines.enumerate() {
        show_line(rt, i, line)?;
    }
    for p in (0..sheet.point_count()).filter_map(|i| sheet.point(i)) {
        println!(rt; "at {p}")?;
    }
    print!(rt; "ledger")?;
    for j in (0..sheet.ledger_len()).filter_map(|i| sheet.ledger_line(i)) {
        print!(rt; " {j}")?;
    }
    println!(rt; "")?;
    Ok(())
}

// A sheet that is begun and not wanted any more is torn up.
pub fn tear_up(rt: &HostRuntime, lines: &[RangeNumber]) -> anyhow::Result<()> {
    let mut sheet = [9u8; 64];
    let mut writer = SheetWriter::begin();
    let added = writer.add(&mut sheet, 1, lines);
    let torn = writer.tear_up(&mut sheet);
    added?;
    println!(rt; "torn up: {torn} bytes")?;
    Ok(())
}
