// A guess played to its verdict.
ghost use Rattle.std.specs.Prelude.{◌≡◌, false};
ghost use Rattle.runs.specs.Runs.{is_guessing};
ghost use Rattle.runs.specs.Desks.{desk, Lent};
ghost use Rattle.placing.specs.Playing.{Fitted, Courses, Counted};

use nets::finder::Finder;
use nets::verifier::Verifier;
use ranges::space::Space;
use runs::buffers::Buffers;
use runs::run::Run;

// Plays rounds until the open guess has its verdict, and answers how many.
pub(crate) fn play_rounds<S: Space, F: Finder<S>, V: Verifier<S>>(
    run: &mut Run,
    s: &S,
    f: &F,
    v: &V,
    buffers: &mut Buffers<'_>,
) -> u16
    requires { Fitted (S.Space.meaning s.now) ((F.Finder.promise f.now).need (S.Space.meaning s.now).points (S.Space.meaning s.now).ranges) (desk run.old.state buffers.old) }
    ensures fitted { Fitted (S.Space.meaning s.now) ((F.Finder.promise f.now).need (S.Space.meaning s.now).points (S.Space.meaning s.now).ranges) (desk run.new.state buffers.new) }
    ensures closed { is_guessing run.new.state.phase ≡ false }
    ensures course { Courses (F.Finder.promise f.now) (V.Verifier.promise v.now) (S.Space.meaning s.now) (desk run.old.state buffers.old) (desk run.new.state buffers.new) result }
    ensures lent { Lent buffers.old buffers.new }
    ensures counted { Counted (desk run.new.state buffers.new) result }
{
    let mut rounds = 0;
    while run.is_guessing() {
        run.round(s, f, v, buffers).unwrap();
        rounds += 1;
    }
    rounds
}
