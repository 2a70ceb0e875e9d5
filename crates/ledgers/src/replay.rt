ghost use Rattle.std.specs.Prelude.{◌≡◌, ◌^◌, ◌<◌, ◌≤◌, length, Some, Ok};
ghost use Rattle.ranges.specs.Weights.{total};
ghost use Rattle.guesses.specs.Limits.{limit_of};
ghost use Rattle.ledgers.specs.Doublings.{ones, good, NeedsMore};
ghost use Rattle.ledgers.specs.Replays.{replayed, replayed_weights, replay_check, replay_answer, replay_weights, replay_reason};
ghost use Rattle.ledgers.specs.declared.replay.ReplayError.TheVariants.{Refused};

use crate::doubling::double_range;
use guesses::limit::limit;
use ranges::number::RangeNumber;
use ranges::refusal::Refusal;
use ranges::space::Space;
use ranges::weight::Weights;
use std::error::Error;
use std::fmt;

// Why a replay proves nothing: it is refused, or the line at a place is the first that is not good.
#[derive(Clone, Copy, Debug, PartialEq, Eq)]
pub enum ReplayError {
    Refused(Refusal),
    BadLine(usize),
}

impl From<Refusal> for ReplayError {
    ghost from_gives = { λ e r. r ≡ Refused e };

    fn from(refusal: Refusal) -> ReplayError {
        ReplayError::Refused(refusal)
    }
}

impl fmt::Display for ReplayError {
    ghost output = { λ e. Some (replay_reason e) };

    fn fmt<W: fmt::Write>(&self, f: &mut fmt::Formatter<W>) -> fmt::Result {
        match self {
            ReplayError::Refused(e) => write!(f, "{e}"),
            ReplayError::BadLine(i) => write!(f, "line {i} is not good"),
        }
    }
}

impl Error for ReplayError {}

// Checks a ledger line by line; accepted, it proves that guess k is too small.
pub fn replay<S: Space>(
    s: &S,
    k: u16,
    ledger: &[RangeNumber],
    weights: &mut [u64],
) -> Result<(), ReplayError>
    ensures answer { result ≡ replay_answer (S.Space.meaning s.now) k ledger.now (length weights.old) }
    ensures weights { weights.new ≡ replay_weights result (S.Space.meaning s.now) k ledger.now weights.old }
    ensures law { result ≡ Ok tt → NeedsMore (S.Space.meaning s.now) k }
{
    check_replay(s, k, ledger.len(), weights.len())?;
    weights.fill(1);
    replay_lines(s, k, ledger, weights)
}

// The checks of replay, in number order.
fn check_replay<S: Space>(s: &S, k: u16, lines: usize, weights: usize) -> Result<(), Refusal>
    ensures check { result ≡ replay_check (S.Space.meaning s.now) k lines weights }
{
    let n = s.points();
    if weights != n as usize {
        return Err(Refusal::WrongLength);
    }
    let Some(most) = limit(n, k) else {
        return Err(Refusal::GuessOutOfRange);
    };
    if lines != most as usize {
        return Err(Refusal::LedgerLength);
    }
    Ok(())
}

// Goes through the lines in order from weights 1, up to the first that is not good.
fn replay_lines<S: Space>(
    s: &S,
    k: u16,
    ledger: &[RangeNumber],
    weights: &mut [u64],
) -> Result<(), ReplayError>
    requires some { 0 < k }
    requires few { k ≤ (S.Space.meaning s.now).points }
    requires lines { length ledger.now ≡ limit_of (S.Space.meaning s.now).points k }
    requires weights { weights.old ≡ ones (S.Space.meaning s.now).points }
    ensures answer { result ≡ replayed (S.Space.meaning s.now) k 0 weights.old ledger.now }
    ensures weights { weights.new ≡ replayed_weights (S.Space.meaning s.now) k weights.old ledger.now }
    ensures law { result ≡ Ok tt → NeedsMore (S.Space.meaning s.now) k }
{
    for (i, j) in ledger.iter().enumerate() {
        if !is_good(s, k, weights, *j) {
            return Err(ReplayError::BadLine(i));
        }
        double_range(s, *j, weights);
    }
    Ok(())
}

// Whether a line is good: its range exists and is light. Its weights are a plain slice, since the next line doubles them.
fn is_good<S: Space>(s: &S, k: u16, weights: &[u64], j: RangeNumber) -> bool
    requires long { length weights.now ≡ (S.Space.meaning s.now).points }
    requires small { total weights.now ≤ 2 ^ 49 }
    ensures { result ≡ good (S.Space.meaning s.now) k weights.now j.0 }
{
    j.0 < s.ranges() && Weights::new(s, weights).is_ok_and(|w| !w.is_heavy(k, j))
}
