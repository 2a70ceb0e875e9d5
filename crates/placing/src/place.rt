// Place: a space in, points, floor, rounds and sheet out.
ghost use Rattle.std.specs.Prelude.{◌≡◌, ◌+◌, ◌*◌, ◌≤◌, true, [], length};
ghost use Rattle.guesses.specs.Books.{book_lines};
ghost use Rattle.runs.specs.Histories.{last_line};
ghost use Rattle.ranges.specs.Refusals.{verdict_of};
ghost use Rattle.runs.specs.Runs.{blank_state};
ghost use Rattle.sheets.specs.Bytes.{put};
ghost use Rattle.sheets.specs.Writing.{end_bytes, end_length};
ghost use Rattle.sheets.specs.RoundTrip.{AllReadBack};
ghost use Rattle.placing.specs.Placements.{place_check, clean_marks, Placed, PlaceDone, OnlyOne};
ghost use Rattle.placing.specs.Lending.{with_sheet};
ghost use Rattle.runs.specs.Desks.{desk, Lent};
ghost use Rattle.placing.specs.Playing.{Ready, Fitted, EndsIn, Placeable, following, points_in};

use crate::check::check_place;
use crate::guess::{is_ruled_out, play_guess};
use guesses::book::{Book, Verdict};
use nets::finder::Finder;
use nets::verifier::Verifier;
use ranges::refusal::Refusal;
use ranges::space::Space;
use runs::buffers::Buffers;
use runs::run::Run;
use sheets::writer::SheetWriter;

// Chooses points that hit every range: points chosen, floor, accepted rounds and the sheet's length.
pub fn place<S: Space, F: Finder<S>, V: Verifier<S>>(
    s: &S,
    f: &F,
    v: &V,
    buffers: &mut Buffers<'_>,
    sheet: &mut [u8],
) -> Result<(u16, u16, u32, usize), Refusal>
    ensures check { verdict_of result ≡ place_check (S.Space.meaning s.now) ((F.Finder.promise f.now).need (S.Space.meaning s.now).points (S.Space.meaning s.now).ranges) (length buffers.old.weights.now) (length buffers.old.marks.now) (length buffers.old.ledger.now) (length buffers.old.scratch.now) (length sheet.old) }
    ensures done { PlaceDone (F.Finder.promise f.now) (V.Verifier.promise v.now) (S.Space.meaning s.now) result (with_sheet buffers.old sheet.old) (with_sheet buffers.new sheet.new) }
    ensures only { OnlyOne (F.Finder.promise f.now) (V.Verifier.promise v.now) (S.Space.meaning s.now) result (with_sheet buffers.old sheet.old) (with_sheet buffers.new sheet.new) }
    ensures lent { Lent buffers.old buffers.new }
{
    place_or_refuse(s, f, v, buffers, sheet)
}

// The checks first, so that a refusal leaves every buffer as it was.
fn place_or_refuse<S: Space, F: Finder<S>, V: Verifier<S>>(
    s: &S,
    f: &F,
    v: &V,
    buffers: &mut Buffers<'_>,
    sheet: &mut [u8],
) -> Result<(u16, u16, u32, usize), Refusal>
    ensures check { verdict_of result ≡ place_check (S.Space.meaning s.now) ((F.Finder.promise f.now).need (S.Space.meaning s.now).points (S.Space.meaning s.now).ranges) (length buffers.old.weights.now) (length buffers.old.marks.now) (length buffers.old.ledger.now) (length buffers.old.scratch.now) (length sheet.old) }
    ensures done { PlaceDone (F.Finder.promise f.now) (V.Verifier.promise v.now) (S.Space.meaning s.now) result (with_sheet buffers.old sheet.old) (with_sheet buffers.new sheet.new) }
    ensures only { OnlyOne (F.Finder.promise f.now) (V.Verifier.promise v.now) (S.Space.meaning s.now) result (with_sheet buffers.old sheet.old) (with_sheet buffers.new sheet.new) }
    ensures lent { Lent buffers.old buffers.new }
{
    let need = f.need(s.points(), s.ranges());
    check_place(s, need, buffers.lengths(), sheet.len())?;
    clean_marks(s, buffers.marks);
    Ok(place_checked(s, f, v, buffers, sheet))
}

// Without ranges no point is chosen.
fn clean_marks<S: Space>(s: &S, marks: &mut [u8])
    ensures { marks.new ≡ clean_marks (S.Space.meaning s.now) marks.old }
{
    if s.ranges() == 0 {
        marks.fill(0);
    }
}

// Place after its checks: no call below is refused.
fn place_checked<S: Space, F: Finder<S>, V: Verifier<S>>(
    s: &S,
    f: &F,
    v: &V,
    buffers: &mut Buffers<'_>,
    sheet: &mut [u8],
) -> (u16, u16, u32, usize)
    requires { Placeable (F.Finder.promise f.now) (S.Space.meaning s.now) (length buffers.old.weights.now) buffers.old.marks.now (length buffers.old.ledger.now) (length buffers.old.scratch.now) (length sheet.old) }
    ensures placed { Placed (F.Finder.promise f.now) (V.Verifier.promise v.now) (S.Space.meaning s.now) (desk blank_state buffers.old) sheet.old result (with_sheet buffers.new sheet.new) }
    ensures lent { Lent buffers.old buffers.new }
{
    let mut run = Run::new();
    run.begin(s).unwrap();
    let mut writer = SheetWriter::begin();
    if s.ranges() == 0 {
        let marks = &mut *buffers.marks;
        return finish(&run, writer, marks, 0, sheet);
    }
    let rounds = play_guesses(&mut run, &mut writer, s, f, v, buffers, sheet);
    let marks = &mut *buffers.marks;
    finish(&run, writer, marks, rounds, sheet)
}

// Closes the sheet with the run's book and floor, and answers the four numbers.
fn finish(
    run: &Run,
    writer: SheetWriter,
    marks: &[u8],
    rounds: u32,
    sheet: &mut [u8],
) -> (u16, u16, u32, usize)
    requires marks { length marks.now ≤ 4096 }
    requires room { writer.len + end_length (book_lines run.now.state.book) marks.now ≤ length sheet.old }
    requires short { writer.len + end_length (book_lines run.now.state.book) marks.now ≤ 2147483648 }
    requires floor { run.now.state.floor ≡ writer.guess }
    ensures points { result.0 ≡ points_in (last_line (book_lines run.now.state.book)) }
    ensures floor { result.1 ≡ run.now.state.floor }
    ensures rounds { result.2 ≡ rounds }
    ensures length { result.3 ≡ writer.len + end_length (book_lines run.now.state.book) marks.now }
    ensures bytes { sheet.new ≡ put sheet.old writer.len (end_bytes writer (book_lines run.now.state.book) run.now.state.floor marks.now) }
    ensures back { AllReadBack (writer.len + end_length (book_lines run.now.state.book) marks.now) writer sheet.old (book_lines run.now.state.book) run.now.state.floor marks.now sheet.new }
{
    let book = run.book();
    let floor = run.floor();
    let Ok(len) = writer.close(sheet, &book, floor, marks) else {
        unreachable!()
    };
    answer(&book, floor, rounds, len)
}

// The four numbers: points, floor, rounds and length.
fn answer(book: &Book, floor: u16, rounds: u32, len: usize) -> (u16, u16, u32, usize)
    ensures points { result.0 ≡ points_in (last_line (book_lines book.now)) }
    ensures floor { result.1 ≡ floor }
    ensures rounds { result.2 ≡ rounds }
    ensures length { result.3 ≡ len }
{
    (hit_points(book), floor, rounds, len)
}

// The guess after k: 1 at first, then twice as many, at most n.
fn next_guess(n: u16, k: u16) -> u16
    requires { k ≤ 4096 }
    ensures { result ≡ following n k }
{
    if k == 0 { 1 } else { (2 * k).min(n) }
}

// The points of the last guess in the book, if it was hit.
fn hit_points(book: &Book) -> u16
    ensures { result ≡ points_in (last_line (book_lines book.now)) }
{
    match book.lines().last().map(|line| line.verdict) {
        Some(Verdict::Hit(points)) => points,
        _ => 0,
    }
}

// Plays guess after guess until one is hit, and answers the rounds of all.
fn play_guesses<S: Space, F: Finder<S>, V: Verifier<S>>(
    run: &mut Run,
    writer: &mut SheetWriter,
    s: &S,
    f: &F,
    v: &V,
    buffers: &mut Buffers<'_>,
    sheet: &mut [u8],
) -> u32
    requires { Ready (F.Finder.promise f.now) (V.Verifier.promise v.now) (S.Space.meaning s.now) 1 (desk run.old.state buffers.old) writer.old sheet.old }
    ensures fitted { Fitted (S.Space.meaning s.now) ((F.Finder.promise f.now).need (S.Space.meaning s.now).points (S.Space.meaning s.now).ranges) (desk run.new.state buffers.new) }
    ensures short { writer.new.len ≤ 22 * (S.Space.meaning s.now).points + 48 }
    ensures lines { length (book_lines run.new.state.book) ≤ 13 }
    ensures ends { EndsIn (F.Finder.promise f.now) (V.Verifier.promise v.now) (S.Space.meaning s.now) (desk run.old.state buffers.old) writer.old sheet.old (desk run.new.state buffers.new) writer.new sheet.new result }
    ensures lent { Lent buffers.old buffers.new }
{
    let n = s.points();
    let mut k = 0;
    let mut rounds: u32 = 0;
    // no guess yet counts as guess 0 ruled out, since the floor is 0
    while is_ruled_out(run, k) {
        k = next_guess(n, k);
        rounds += play_guess(run, writer, s, f, v, k, buffers, sheet) as u32;
    }
    rounds
}
