ghost use Rattle.std.specs.Prelude.{◌≡◌};
ghost use Rattle.ranges.specs.Weights.{marked, missed, range_of};
ghost use Rattle.nets.specs.Verifiers.{lightest_missed, lightest_verifier};
ghost use Rattle.nets.specs.Lightness.{lightest_judged};

use crate::verifier::{Verifier, check_judge};
use ranges::hit::{Marked, is_hit};
use ranges::number::RangeNumber;
use ranges::refusal::Refusal;
use ranges::space::Space;
use ranges::weight::Weights;

// Names the missed range of least weight, the lowest number among equals.
#[derive(Clone, Copy)]
pub struct Lightest;

impl<S: Space> Verifier<S> for Lightest {
    ghost promise = { λ _. lightest_verifier };

    ghost sound = { λ v. lightest_judged };

    fn judge(&self, s: &S, marks: &[u8], weights: &[u64]) -> Result<Option<RangeNumber>, Refusal> {
        let weights = check_judge(s, marks.len(), weights)?;
        Ok(lightest_missed(&weights, marks))
    }
}

// Of equal ranges `min_by_key` keeps the first.
fn lightest_missed<S: Space>(weights: &Weights<'_, S>, marks: &[u8]) -> Option<RangeNumber>
    ensures { range_of result ≡ lightest_missed (S.Space.meaning weights.now.space.now) marks.now weights.now.each.now }
{
    let s = weights.space();
    (0..s.ranges())
        .map(RangeNumber)
        .filter(|j| is_missed(s, marks, *j))
        .min_by_key(|j| weights.of_range(*j))
}

fn is_missed<S: Space>(s: &S, marks: &[u8], range: RangeNumber) -> bool
    ensures { result ≡ missed (S.Space.meaning s.now) (marked marks.now) range.0 }
{
    !is_hit(s, &Marked(marks), range)
}
