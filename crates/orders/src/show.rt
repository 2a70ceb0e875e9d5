// What a sheet says, printed from its bytes alone.
use anyhow::Context;
use guesses::book::Book;
use ledgers::replay::{ReplayError, replay};
use listings::listing::write_listing;
use ranges::number::RangeNumber;
use ranges::space::Space;
use runs::buffers::Buffers;
use sheets::reader::{Sheet, read_sheet};

// The listing, the last ledger, the bytes, and the replay of the ledger as read back.
pub fn show_sheet<S: Space>(
    rt: &HostRuntime,
    space: &S,
    len: usize,
    buffer: &[u8],
    buffers: &mut Buffers<'_>,
) -> anyhow::Result<()> {
    let bytes = buffer
        .get(..len)
        .context("the sheet is longer than its buffer")?;
    let sheet = read_sheet(bytes)?;
    show_listing(rt, space, &sheet, buffers.marks)?;
    show_ledger(rt, &sheet)?;
    show_bytes(rt, bytes)?;
    replay_back(rt, space, &sheet, buffers)
}

// The book that a sheet holds.
fn book_of(sheet: &Sheet<'_>) -> Book {
    let mut book = Book::new();
    for line in (0..sheet.book_len()).filter_map(|i| sheet.book_line(i)) {
        let _ = book.add(line);
    }
    book
}

fn show_listing<S: Space>(
    rt: &HostRuntime,
    space: &S,
    sheet: &Sheet<'_>,
    marks: &[u8],
) -> anyhow::Result<()> {
    let mut text = [0u8; 1024];
    let len = write_listing(
        space.points(),
        space.ranges(),
        &book_of(sheet),
        sheet.floor(),
        marks,
        &mut text,
    )?;
    let listing = text
        .get(..len)
        .context("the listing is longer than its buffer")?;
    rt.print(std::str::from_utf8(listing)?)?;
    Ok(())
}

fn show_ledger(rt: &HostRuntime, sheet: &Sheet<'_>) -> anyhow::Result<()> {
    print!(rt; "ledger of guess {}:", sheet.floor())?;
    for j in (0..sheet.ledger_len()).filter_map(|i| sheet.ledger_line(i)) {
        print!(rt; " {j}")?;
    }
    println!(rt; "")?;
    Ok(())
}

fn show_bytes(rt: &HostRuntime, bytes: &[u8]) -> anyhow::Result<()> {
    print!(rt; "sheet")?;
    for byte in bytes {
        print!(rt; " {byte:02x}")?;
    }
    println!(rt; "")?;
    Ok(())
}

// The sheet's ledger in the front of a buffer, if it fits.
fn copy_ledger<'a>(sheet: &Sheet<'_>, buffer: &'a mut [RangeNumber]) -> Option<&'a [RangeNumber]> {
    let lines = (0..sheet.ledger_len()).filter_map(|i| sheet.ledger_line(i));
    for (place, line) in buffer.iter_mut().zip(lines) {
        *place = line;
    }
    buffer.get(..sheet.ledger_len())
}

fn replay_back<S: Space>(
    rt: &HostRuntime,
    space: &S,
    sheet: &Sheet<'_>,
    buffers: &mut Buffers<'_>,
) -> anyhow::Result<()> {
    let buffer = &mut *buffers.ledger;
    let ledger = copy_ledger(sheet, buffer).context("the ledger does not fit its buffer")?;
    let weights = &mut *buffers.weights;
    match replay(space, sheet.floor(), ledger, weights) {
        Ok(()) => println!(rt; "replay of the sheet's ledger: accepted")?,
        Err(ReplayError::BadLine(i)) => println!(rt;
            "replay of the sheet's ledger: line {i} is not good"
        )?,
        Err(refused) => return Err(refused.into()),
    }
    Ok(())
}
