ghost use Rattle.std.specs.Prelude.{◌≡◌, ◌+◌, ◌^◌, ◌<◌, ◌≤◌, true, length, Ok};
ghost use Rattle.ranges.specs.Weights.{total, range_weight};
ghost use Rattle.ledgers.specs.Doublings.{doubled_points};
ghost use Rattle.nets.specs.Finders.{find_check};
ghost use Rattle.guesses.specs.Limits.{limit_of};
ghost use Rattle.runs.specs.Runs.{SomeGuess, FewGuess, round_check, buffer_check, miss_state, closed_state, guess_of, is_guessing, or_guess, cleared, NetAndVerdict};

use crate::buffers::Lengths;
use crate::state::{OpenGuess, Phase, State};
use guesses::book::{GuessLine, Verdict};
use guesses::limit::limit;
use ledgers::doubling::double_points;
use nets::finder::Finder;
use nets::verifier::Verifier;
use ranges::hit::PointSet;
use ranges::number::RangeNumber;
use ranges::refusal::Refusal;
use ranges::space::Space;
use ranges::weight::{range_weight, total_weight};

// The open guess of a round, after its checks in number order.
pub(crate) fn check_round<S: Space>(
    state: &State,
    s: &S,
    weights: &[u64],
    lengths: Lengths,
    need: usize,
) -> Result<OpenGuess, Refusal>
    requires some { SomeGuess state.now }
    requires few { FewGuess state.now }
    requires small { is_guessing state.now.phase ≡ true → (guess_of state.now.phase).total ≤ 2 ^ 49 }
    ensures check { result ≡ or_guess (round_check (S.Space.meaning s.now) state.now weights.now lengths.marks lengths.ledger lengths.scratch need) (guess_of state.now.phase) }
{
    let n = s.points();
    if let Phase::Blank = state.phase {
        return Err(Refusal::RunBlank);
    }
    if n != state.n || s.ranges() != state.m {
        return Err(Refusal::OtherSpace);
    }
    if weights.len() != n as usize || lengths.marks != n as usize {
        return Err(Refusal::WrongLength);
    }
    let Phase::Guessing(guess) = state.phase else {
        return Err(Refusal::NoGuessOpen);
    };
    check_buffers(n, guess, lengths, need, total_weight(weights))?;
    Ok(guess)
}

// The checks of a round that concern the open guess; its bounds stay clauses, since a state without a guess has no value that keeps them.
fn check_buffers(
    n: u16,
    guess: OpenGuess,
    lengths: Lengths,
    need: usize,
    whole: u64,
) -> Result<(), Refusal>
    requires some { 0 < guess.k }
    requires few { guess.k ≤ n }
    requires points { n ≤ 4096 }
    ensures { result ≡ buffer_check n guess.k guess.total lengths.ledger lengths.scratch need whole }
{
    let Some(most) = limit(n, guess.k) else {
        return Err(Refusal::GuessOutOfRange);
    };
    if lengths.ledger < most as usize {
        return Err(Refusal::LedgerLength);
    }
    if lengths.scratch < need {
        return Err(Refusal::ShortScratch);
    }
    if whole != guess.total {
        return Err(Refusal::WrongTotal);
    }
    Ok(())
}

// Has the finder mark a net and the verifier judge it; both accept, since a round's checks are theirs.
pub(crate) fn play<S: Space, F: Finder<S>, V: Verifier<S>>(
    s: &S,
    f: &F,
    v: &V,
    k: u16,
    weights: &[u64],
    marks: &mut [u8],
    scratch: &mut [u8],
) -> (u16, Option<RangeNumber>)
    requires { find_check (S.Space.meaning s.now) k weights.now (length marks.old) (length scratch.old) ((F.Finder.promise f.now).need (S.Space.meaning s.now).points (S.Space.meaning s.now).ranges) ≡ Ok tt }
    ensures net { NetAndVerdict (F.Finder.promise f.now) (V.Verifier.promise v.now) (S.Space.meaning s.now) k weights.now marks.new result.0 result.1 }
    ensures scratch { scratch.new ≡ cleared ((F.Finder.promise f.now).need (S.Space.meaning s.now).points (S.Space.meaning s.now).ranges) scratch.old }
{
    let points = f.find(s, k, weights, marks, scratch).unwrap();
    let missed = v.judge(s, marks, weights).unwrap();
    (points, missed)
}

// The state with the open guess closed by a verdict.
pub(crate) fn closed(state: &State, k: u16, doublings: u16, verdict: Verdict) -> State
    ensures { result ≡ closed_state state.now k doublings verdict }
{
    let mut next = *state;
    let _ = next.book.rewrite_last(GuessLine {
        k,
        doublings,
        verdict,
    });
    next.phase = Phase::Idle;
    next
}

// The state after a range of this weight was missed and doubled; the bounds of its guess are clauses, as in `check_buffers`.
pub(crate) fn missed(state: &State, guess: OpenGuess, weight: u64) -> State
    requires some { 0 < guess.k }
    requires few { guess.k ≤ state.now.n }
    requires points { state.now.n ≤ 4096 }
    requires early { guess.doublings < limit_of state.now.n guess.k }
    requires small { guess.total + weight < 2 ^ 64 }
    ensures { result ≡ miss_state state.now guess weight }
{
    let k = guess.k;
    let doublings = guess.doublings + 1;
    if limit(state.n, k) == Some(doublings) {
        let mut next = closed(state, k, doublings, Verdict::RuledOut);
        next.floor = k;
        return next;
    }
    let mut next = closed(state, k, doublings, Verdict::Open);
    next.phase = Phase::Guessing(OpenGuess {
        k,
        doublings,
        total: guess.total + weight,
    });
    next
}

// The weight of the missed range as it stands; of a plain slice, since checked `Weights` would add up again what the round has added up.
pub(crate) fn missed_weight<S: Space>(s: &S, weights: &[u64], j: RangeNumber) -> u64
    requires long { length weights.now ≡ (S.Space.meaning s.now).points }
    requires small { total weights.now ≤ 2 ^ 49 }
    ensures weight { result ≡ range_weight (S.Space.meaning s.now) weights.now j.0 }
    ensures small { result ≤ total weights.now }
{
    range_weight(s, weights, j)
}

// Doubles the weight of each point of the set; of a plain slice, since `Weights` only reads.
pub(crate) fn double_set<S: Space, P: PointSet>(s: &S, set: &P, weights: &mut [u64])
    requires long { length weights.old ≡ (S.Space.meaning s.now).points }
    requires small { total weights.old ≤ 2 ^ 49 }
    ensures { weights.new ≡ doubled_points (P.PointSet.members set.now) weights.old }
{
    double_points(s.points(), set, weights);
}
