ghost use Rattle.std.specs.Prelude.{◌≡◌, length};
ghost use Rattle.ranges.specs.Weights.{chosen, marks_of};
ghost use Rattle.foreign.specs.Touched.{touched, touching_finder};
ghost use Rattle.foreign.specs.TouchedNet.{touching_sound};

use nets::finder::{Finder, check_find};
use ranges::number::{PointNumber, RangeNumber};
use ranges::refusal::Refusal;
use ranges::space::Space;
use ranges::weight::Weights;

// It needs no scratch.
const NO_SCRATCH: usize = 0;

// The plainest finder: marks every point that lies in a heavy range.
#[derive(Clone, Copy)]
pub struct Touching;

impl<S: Space> Finder<S> for Touching {
    ghost promise = { λ _. touching_finder };

    ghost sound = { λ f. touching_sound };

    fn bound(&self, n: u16, _m: u16, _k: u16) -> u32 {
        n as u32
    }

    fn need(&self, _n: u16, _m: u16) -> usize {
        NO_SCRATCH
    }

    fn find(
        &self,
        s: &S,
        k: u16,
        weights: &[u64],
        marks: &mut [u8],
        scratch: &mut [u8],
    ) -> Result<u16, Refusal> {
        let weights = check_find(s, k, weights, marks.len(), scratch.len(), NO_SCRATCH)?;
        Ok(mark_touched(&weights, k, marks))
    }
}

// Marks the points that lie in a heavy range, and answers how many.
fn mark_touched<S: Space>(weights: &Weights<'_, S>, k: u16, marks: &mut [u8]) -> u16
    requires { length marks.old ≡ (S.Space.meaning weights.now.space.now).points }
    ensures marks { marks.new ≡ marks_of (touched (S.Space.meaning weights.now.space.now) k weights.now.each.now) (S.Space.meaning weights.now.space.now).points }
    ensures count { result ≡ chosen marks.new }
{
    let mut count: u16 = 0;
    for (p, mark) in marks.iter_mut().enumerate() {
        let touched = is_touched(weights, k, PointNumber(p as u16));
        *mark = u8::from(touched);
        count += u16::from(touched);
    }
    count
}

// Whether a heavy range holds point p.
fn is_touched<S: Space>(weights: &Weights<'_, S>, k: u16, p: PointNumber) -> bool
    ensures { result ≡ touched (S.Space.meaning weights.now.space.now) k weights.now.each.now p.0 }
{
    let s = weights.space();
    (0..s.ranges())
        .map(RangeNumber)
        .any(|j| s.holds(j, p) && weights.is_heavy(k, j))
}
