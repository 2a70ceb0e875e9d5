ghost use Rattle.std.specs.Prelude.{◌≡◌, length, IfOk};
ghost use Rattle.ranges.specs.Refusals.{verdict_of};
ghost use Rattle.nets.specs.Verifiers.{VerifierMeaning, judge_check, Picked, VerifierSound, lowest_verifier};
ghost use Rattle.nets.specs.Lowest.{lowest_judged};

use ranges::hit::{Marked, lowest_missed};
use ranges::number::RangeNumber;
use ranges::refusal::Refusal;
use ranges::space::Space;
use ranges::weight::Weights;

// Says whether the marked points hit every range, or names one that they miss.
pub trait Verifier<S: Space> {
    ghost promise: { Self → VerifierMeaning };

    fn judge(&self, s: &S, marks: &[u8], weights: &[u64]) -> Result<Option<RangeNumber>, Refusal>
        ensures check { verdict_of result ≡ judge_check (S.Space.meaning s.now) (length marks.now) weights.now }
        ensures answer { Picked (promise self.now) (S.Space.meaning s.now) marks.now weights.now result };

    ghost sound: { (v : Self) → VerifierSound (promise v) };
}

// The checks of every verifier, in number order; passed, they give the weights with their total.
pub fn check_judge<'a, S: Space>(
    s: &'a S,
    marks: usize,
    weights: &'a [u64],
) -> Result<Weights<'a, S>, Refusal>
    ensures check { verdict_of result ≡ judge_check (S.Space.meaning s.now) marks weights.now }
    ensures given { IfOk result (λ w. (w.each.now ≡ weights.now) × (S.Space.meaning w.space.now ≡ S.Space.meaning s.now)) }
{
    if marks != s.points() as usize {
        return Err(Refusal::WrongLength);
    }
    Weights::new(s, weights)
}

// Names the missed range with the lowest number.
#[derive(Clone, Copy)]
pub struct Lowest;

impl<S: Space> Verifier<S> for Lowest {
    ghost promise = { λ _. lowest_verifier };

    ghost sound = { λ v. lowest_judged };

    fn judge(&self, s: &S, marks: &[u8], weights: &[u64]) -> Result<Option<RangeNumber>, Refusal> {
        check_judge(s, marks.len(), weights)?;
        Ok(lowest_missed(s, &Marked(marks)))
    }
}
