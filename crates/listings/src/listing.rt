// The listing of a run, a line for each of its parts.
ghost use Rattle.std.specs.Prelude.{◌≡◌, ◌+◌, ◌*◌, ◌^◌, ◌≤◌, ◌++◌, length, drop, OnOk};
ghost use Rattle.guesses.specs.Books.{book_lines};
ghost use Rattle.guesses.specs.Texts.{verdict_text, line_text};
ghost use Rattle.sheets.specs.Sheets.{chosen_points};
ghost use Rattle.listings.specs.Text.{Laid, Lays, DecimalLaw};
ghost use Rattle.listings.specs.Listings.{head_text, guesses_text, floor_text, at_text, points_text, listing, listing_answer, listed};

use crate::text::Lay;
use guesses::book::{Book, GuessLine, Verdict};
use ranges::refusal::Refusal;

fn head(lay: &mut Lay<'_>, n: u16, m: u16)
    requires { lay.old.at ≤ 2 ^ 58 }
    ensures laid { Lays lay.old (head_text n m) lay.new }
    ensures short { lay.new.at ≤ lay.old.at + 26 }
{
    lay.text("points ");
    lay.number(n);
    lay.text(" ranges ");
    lay.number(m);
    lay.end_line();
}

// Only a hit has points.
fn verdict(lay: &mut Lay<'_>, v: Verdict)
    requires { lay.old.at ≤ 2 ^ 58 }
    ensures laid { Lays lay.old (verdict_text v) lay.new }
    ensures short { lay.new.at ≤ lay.old.at + 9 }
{
    match v {
        Verdict::Open => lay.text("open"),
        Verdict::Hit(points) => {
            lay.text("hit ");
            lay.number(points);
        }
        Verdict::RuledOut => lay.text("ruled out"),
        Verdict::GivenUp => lay.text("given up"),
    }
}

fn guess(lay: &mut Lay<'_>, line: GuessLine)
    requires { lay.old.at ≤ 2 ^ 57 }
    ensures laid { Lays lay.old (line_text line) lay.new }
    ensures short { lay.new.at ≤ lay.old.at + 37 }
{
    lay.text("guess ");
    lay.number(line.k);
    lay.text(" doublings ");
    lay.number(line.doublings);
    lay.text(" ");
    verdict(lay, line.verdict);
}

fn guesses(lay: &mut Lay<'_>, book: &Book)
    requires { lay.old.at ≤ 2 ^ 56 }
    ensures laid { Lays lay.old (guesses_text (book_lines book.now)) lay.new }
    ensures short { lay.new.at ≤ lay.old.at + 38 * 24 }
{
    for line in book.lines() {
        guess(lay, *line);
        lay.end_line();
    }
}

fn floor_line(lay: &mut Lay<'_>, k: u16)
    requires { lay.old.at ≤ 2 ^ 58 }
    ensures laid { Lays lay.old (floor_text k) lay.new }
    ensures short { lay.new.at ≤ lay.old.at + 12 }
{
    lay.text("floor ");
    lay.number(k);
    lay.end_line();
}

fn at_line(lay: &mut Lay<'_>, p: u16)
    requires { lay.old.at ≤ 2 ^ 58 }
    ensures laid { Lays lay.old (at_text p) lay.new }
    ensures short { lay.new.at ≤ lay.old.at + 9 }
{
    lay.text("at ");
    lay.number(p);
    lay.end_line();
}

// A line for each point whose byte is 1.
fn points(lay: &mut Lay<'_>, marks: &[u8])
    requires { (lay.old.at ≤ 2 ^ 56) × (length marks.now ≤ 65535) }
    ensures { Lays lay.old (points_text (chosen_points marks.now)) lay.new }
{
    for (p, byte) in marks.iter().enumerate() {
        let marked = *byte == 1;
        if marked {
            at_line(lay, p as u16);
        }
    }
}

// The whole listing, as far as the buffer goes; answers where it ends.
fn lay_listing(out: &mut [u8], n: u16, m: u16, book: &Book, floor: u16, marks: &[u8]) -> usize
    requires { length marks.now ≤ 65535 }
    ensures { Laid out.old 0 (listing n m (book_lines book.now) floor marks.now) out.new result }
{
    let mut lay = Lay::new(out);
    head(&mut lay, n, m);
    guesses(&mut lay, book);
    floor_line(&mut lay, floor);
    points(&mut lay, marks);
    lay.end()
}

pub fn write_listing(
    n: u16,
    m: u16,
    book: &Book,
    floor: u16,
    marks: &[u8],
    out: &mut [u8],
) -> Result<usize, Refusal>
    ensures answer { result ≡ listing_answer n m (book_lines book.now) floor marks.now out.old }
    ensures bytes { out.new ≡ listed result n m (book_lines book.now) floor marks.now out.old }
    ensures digits { OnOk result (DecimalLaw) }
{
    if marks.len() != n as usize {
        return Err(Refusal::WrongLength);
    }
    // how long the listing is: where it ends in a buffer without a byte
    let len = lay_listing(&mut [], n, m, book, floor, marks);
    if out.len() < len {
        return Err(Refusal::ShortBuffer);
    }
    Ok(lay_listing(out, n, m, book, floor, marks))
}
