// The reader of sheets: tests a sheet, and finds its parts.
ghost use Rattle.std.specs.Prelude.{◌≡◌, ◌+◌, ◌*◌, ◌/◌, ◌<◌, ◌≤◌, true, false, length, MatchOption, nat_lt, ◌&&◌};
ghost use Rattle.std.specs.List.{list_all};
ghost use Rattle.sheets.specs.Bytes.{get16};
ghost use Rattle.sheets.specs.Lines.{all_below, verdict_stands, verdicts_stand, rises_at, stands_at};
ghost use Rattle.sheets.specs.Reading.{part, book_stands, points_stand, ledger_stands, ledgers_stand, lines_place, accepted, content, held, read_sheet, contents};

use crate::bytes::read;
use crate::line::line_from;
pub use crate::sheet::Sheet;
use crate::trailer::{NO_LEDGER, Trailer, read_trailer};
use ranges::refusal::Refusal;

fn has_verdict(line: &[u8; 8]) -> bool
    ensures { result ≡ verdict_stands line.now 0 }
{
    line_from(line).is_ok()
}

fn have_verdicts(lines: &[[u8; 8]]) -> bool
    ensures { result ≡ list_all (λ l. verdict_stands l 0) lines.now }
{
    lines.iter().all(has_verdict)
}

#[tactic(auto, using(crate::proofs::Chunks::all_verdicts))]
fn book_stands(book: &[u8]) -> bool
    ensures { result ≡ book_stands book.now }
{
    let (lines, rest) = book.as_chunks();
    rest.is_empty() && lines.len() <= 24 && have_verdicts(lines)
}

// Whether a point lies below n.
fn is_below(p: &[u8; 2], n: u16) -> bool
    ensures { result ≡ nat_lt (get16 p.now 0) n }
{
    u16::from_le_bytes(*p) < n
}

// Whether a point lies below n and above the one before it.
fn rises(before: &[u8; 2], p: &[u8; 2], n: u16) -> bool
    ensures { result ≡ (nat_lt (get16 p.now 0) n && nat_lt (get16 before.now 0) (get16 p.now 0)) }
{
    is_below(p, n) && u16::from_le_bytes(*before) < u16::from_le_bytes(*p)
}

// Whether each point but the first lies below n and above the one before it.
fn others_rise(points: &[[u8; 2]], n: u16) -> bool
    ensures { result ≡ all_below (rises_at points.now n) (length points.now) }
{
    points.is_sorted_by(|before, p| rises(before, p, n))
}

// One pass, which ends at the first point that does not stand: what is refused may be long.
fn points_rise(points: &[[u8; 2]], n: u16) -> bool
    ensures { result ≡ all_below (stands_at points.now n) (length points.now) }
{
    match points.first() {
        Some(p) => is_below(p, n) && others_rise(points, n),
        None => true,
    }
}

#[tactic(auto, using(crate::proofs::Chunks::all_rise))]
fn points_stand(points: &[u8], n: u16) -> bool
    ensures { result ≡ points_stand points.now n }
{
    let (points, rest) = points.as_chunks();
    rest.is_empty() && n <= 4096 && points_rise(points, n)
}

// A ledger section as it lies in a sheet: its guess, how many lines it counts, and the lines.
#[derive(Clone, Copy)]
struct Section<'a> {
    guess: u16,
    count: u16,
    lines: &'a [u8],
}

// The bytes from `place` up to `end` as a section, if they are long enough for its head.
fn section_at(bytes: &[u8], place: usize, end: usize) -> Option<Section<'_>>
    requires { end ≤ length bytes.now }
    ensures { MatchOption result (end < place + 4) (λ s. (place + 4 + length s.lines.now ≡ end) × (s.guess ≡ get16 bytes.now place) × (s.count ≡ get16 bytes.now (place + 2)) × (s.lines.now ≡ part bytes.now (place + 4) end)) }
{
    let section = bytes.get(place..end)?;
    let lines = section.get(4..)?;
    Some(Section {
        guess: u16::from_le_bytes(read(section, 0)),
        count: u16::from_le_bytes(read(section, 2)),
        lines,
    })
}

// The lines of the section that ends where the book begins, if it is there and its guess is the floor.
fn section_lines<'a>(bytes: &'a [u8], t: &Trailer) -> Option<&'a [u8]>
    requires { t.now.book ≤ length bytes.now }
    ensures { MatchOption result (ledger_stands bytes.now t.now ≡ false) (λ lines. (ledger_stands bytes.now t.now ≡ true) × (lines.now ≡ part bytes.now (t.now.ledger + 4) t.now.book)) }
{
    let section = section_at(bytes, t.ledger as usize, t.book as usize)?;
    if section.guess != t.floor
        || t.floor == 0
        || section.lines.len() != 2 * section.count as usize
    {
        return None;
    }
    Some(section.lines)
}

// The lines of the last ledger; without a ledger there are none, and the floor and the book's place are 0.
fn ledger_lines<'a>(bytes: &'a [u8], t: &Trailer) -> Option<&'a [u8]>
    requires { t.now.book ≤ length bytes.now }
    ensures { MatchOption result (ledgers_stand bytes.now t.now ≡ false) (λ lines. (ledgers_stand bytes.now t.now ≡ true) × (lines.now ≡ part bytes.now (lines_place t.now) t.now.book)) }
{
    if t.ledger == NO_LEDGER {
        return (t.floor == 0 && t.book == 0).then_some(&bytes[..0]);
    }
    section_lines(bytes, t)
}

// The parts of a sheet, if these bytes are one.
fn parts(bytes: &[u8]) -> Option<Sheet<'_>>
    ensures { MatchOption result (accepted bytes.now ≡ false) (λ sheet. (accepted bytes.now ≡ true) × (held sheet ≡ content bytes.now)) }
{
    let end = bytes.len().checked_sub(16)?;
    let t = read_trailer(bytes, end);
    let points = bytes.get(t.points as usize..end)?;
    let book = bytes.get(t.book as usize..t.points as usize)?;
    let ledger = ledger_lines(bytes, &t)?;
    if !book_stands(book) || !points_stand(points, t.n) {
        return None;
    }
    Some(Sheet {
        book,
        points,
        ledger,
        n: t.n,
        floor: t.floor,
    })
}

pub fn read_sheet(bytes: &[u8]) -> Result<Sheet<'_>, Refusal>
    ensures { contents result ≡ read_sheet bytes.now }
{
    parts(bytes).ok_or(Refusal::BadSheet)
}
