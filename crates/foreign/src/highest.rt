ghost use Rattle.std.specs.Prelude.{◌≡◌};
ghost use Rattle.ranges.specs.Weights.{range_of};
ghost use Rattle.foreign.specs.Greatest.{highest_missed, highest_verifier};
ghost use Rattle.foreign.specs.HighestMissed.{highest_judged};

use nets::verifier::{Verifier, check_judge};
use ranges::hit::{Marked, is_hit};
use ranges::number::RangeNumber;
use ranges::refusal::Refusal;
use ranges::space::Space;

// Names the missed range with the highest number.
#[derive(Clone, Copy)]
pub struct Highest;

impl<S: Space> Verifier<S> for Highest {
    ghost promise = { λ _. highest_verifier };

    ghost sound = { λ v. highest_judged };

    fn judge(&self, s: &S, marks: &[u8], weights: &[u64]) -> Result<Option<RangeNumber>, Refusal> {
        check_judge(s, marks.len(), weights)?;
        Ok(highest_missed(s, marks))
    }
}

// Looks from the end, so that the first missed range is the answer.
fn highest_missed<S: Space>(s: &S, marks: &[u8]) -> Option<RangeNumber>
    ensures { range_of result ≡ highest_missed (S.Space.meaning s.now) marks.now }
{
    for j in (0..s.ranges()).rev() {
        let range = RangeNumber(j);
        if !is_hit(s, &Marked(marks), range) {
            return Some(range);
        }
    }
    None
}
