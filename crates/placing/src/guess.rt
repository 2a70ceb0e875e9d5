// One guess of a placement: opened, played to its verdict and, ruled out, written into the sheet.
ghost use Rattle.std.specs.Prelude.{◌≡◌, ◌+◌, ◌*◌, ◌<◌, ◌≤◌, length, take, Ok, ◌==◌};
ghost use Rattle.guesses.specs.Books.{book_lines};
ghost use Rattle.guesses.specs.Limits.{limit_of};
ghost use Rattle.sheets.specs.Bytes.{put};
ghost use Rattle.sheets.specs.Sheets.{section_bytes};
ghost use Rattle.sheets.specs.Writing.{next_writer, AddKeeps};
ghost use Rattle.runs.specs.Desks.{desk, Lent};
ghost use Rattle.placing.specs.Playing.{Ready, Settled, Plays};

use crate::play::play_rounds;
use guesses::limit::limit;
use nets::finder::Finder;
use nets::verifier::Verifier;
use ranges::number::RangeNumber;
use ranges::space::Space;
use runs::buffers::Buffers;
use runs::run::Run;
use sheets::writer::SheetWriter;

// Puts the full ledger of guess k into the sheet; the bounds of k are clauses, since the run keeps it as a plain number.
fn add_ledger(writer: &mut SheetWriter, sheet: &mut [u8], n: u16, k: u16, ledger: &[RangeNumber])
    requires some { 0 < k }
    requires within { k ≤ n }
    requires few { n ≤ 4096 }
    requires lines { 3 * n ≤ length ledger.now }
    requires room { writer.old.len + (4 + 2 * limit_of n k) ≤ 24 * n + 320 }
    requires long { 24 * n + 320 ≤ length sheet.old }
    ensures writer { writer.new ≡ next_writer writer.old k (take (limit_of n k) ledger.now) }
    ensures bytes { sheet.new ≡ put sheet.old writer.old.len (section_bytes k (take (limit_of n k) ledger.now)) }
    ensures written { AddKeeps (Ok tt) writer.old sheet.old k (take (limit_of n k) ledger.now) writer.new sheet.new }
{
    let most = limit(n, k).unwrap() as usize;
    writer.add(sheet, k, &ledger[0..most]).unwrap();
}

// Whether guess k, just played, is ruled out: then the floor is k.
pub(crate) fn is_ruled_out(run: &Run, k: u16) -> bool
    ensures { result ≡ (run.now.state.floor == k) }
{
    run.floor() == k
}

// Plays guess k to its verdict and answers its rounds; the floor is k then exactly if it is ruled out.
pub(crate) fn play_guess<S: Space, F: Finder<S>, V: Verifier<S>>(
    run: &mut Run,
    writer: &mut SheetWriter,
    s: &S,
    f: &F,
    v: &V,
    k: u16,
    buffers: &mut Buffers<'_>,
    sheet: &mut [u8],
) -> u16
    requires { Ready (F.Finder.promise f.now) (V.Verifier.promise v.now) (S.Space.meaning s.now) k (desk run.old.state buffers.old) writer.old sheet.old }
    ensures settled { Settled (F.Finder.promise f.now) (V.Verifier.promise v.now) (S.Space.meaning s.now) k (desk run.new.state buffers.new) writer.new sheet.new }
    ensures plays { Plays (F.Finder.promise f.now) (V.Verifier.promise v.now) (S.Space.meaning s.now) k (desk run.old.state buffers.old) writer.old sheet.old (desk run.new.state buffers.new) writer.new sheet.new result }
    ensures lent { Lent buffers.old buffers.new }
    ensures rounds { result ≤ 12288 }
    ensures lines { length (book_lines run.new.state.book) ≡ length (book_lines run.old.state.book) + 1 }
{
    let n = s.points();
    let weights = &mut *buffers.weights;
    let ledger = &mut *buffers.ledger;
    run.open(s, k, weights, ledger).unwrap();
    let rounds = play_rounds(run, s, f, v, buffers);
    if is_ruled_out(run, k) {
        let ledger = &mut *buffers.ledger;
        add_ledger(writer, sheet, n, k, ledger);
    }
    rounds
}
