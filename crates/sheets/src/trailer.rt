// The trailer of a sheet: where its parts begin, how many points there are, and the floor.
ghost use Rattle.std.specs.Prelude.{◌≡◌, ◌+◌, ◌≤◌, length};
ghost use Rattle.sheets.specs.Bytes.{stored};
ghost use Rattle.sheets.specs.Trailers.{trailer_bytes, trailer_at};

use crate::bytes::{read, store};

// The place by which the format says that there is no ledger; a plain number, since the writer's state keeps it as the format writes it.
pub const NO_LEDGER: u32 = 0xffff_ffff;

#[derive(Clone, Copy)]
pub struct Trailer {
    pub book: u32,
    pub points: u32,
    pub ledger: u32,
    pub n: u16,
    pub floor: u16,
}

pub(crate) fn store_trailer(sheet: &mut [u8], at: usize, t: Trailer)
    requires { at + 16 ≤ length sheet.old }
    ensures { sheet.new ≡ stored sheet.old at (trailer_bytes t) }
{
    store(sheet, at, &t.book.to_le_bytes());
    store(sheet, at + 4, &t.points.to_le_bytes());
    store(sheet, at + 8, &t.ledger.to_le_bytes());
    store(sheet, at + 12, &t.n.to_le_bytes());
    store(sheet, at + 14, &t.floor.to_le_bytes());
}

pub(crate) fn read_trailer(sheet: &[u8], at: usize) -> Trailer
    requires { at + 16 ≤ length sheet.now }
    ensures { result ≡ trailer_at sheet.now at }
{
    Trailer {
        book: u32::from_le_bytes(read(sheet, at)),
        points: u32::from_le_bytes(read(sheet, at + 4)),
        ledger: u32::from_le_bytes(read(sheet, at + 8)),
        n: u16::from_le_bytes(read(sheet, at + 12)),
        floor: u16::from_le_bytes(read(sheet, at + 14)),
    }
}
