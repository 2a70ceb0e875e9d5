ghost use Rattle.std.specs.Prelude.{◌≡◌, length, if◌then◌else◌};
ghost use Rattle.ranges.specs.Weights.{chosen};
ghost use Rattle.nets.specs.Sweeps.{sweep_finder, sweep_net};
ghost use Rattle.nets.specs.SweepsLemmas.{sweep_sound};

use crate::finder::{Finder, check_find};
use ranges::number::RangeNumber;
use ranges::refusal::Refusal;
use ranges::space::{OrderedSpace, Space};
use ranges::weight::{Weights, is_heavy};

// The sweep needs no scratch.
const NO_SCRATCH: usize = 0;

// The finder for ordered spaces: one pass over the points in number order.
#[derive(Clone, Copy)]
pub struct Sweep;

impl<S: OrderedSpace> Finder<S> for Sweep {
    ghost promise = { λ _. sweep_finder };

    ghost sound = { λ f. sweep_sound };

    fn bound(&self, _n: u16, _m: u16, k: u16) -> u32 {
        (2 * k as u32).saturating_sub(1)
    }

    fn need(&self, _n: u16, _m: u16) -> usize {
        NO_SCRATCH
    }

    fn find(
        &self,
        s: &S,
        k: u16,
        weights: &[u64],
        marks: &mut [u8],
        scratch: &mut [u8],
    ) -> Result<u16, Refusal> {
        let weights = check_find(s, k, weights, marks.len(), scratch.len(), NO_SCRATCH)?;
        // one question before the loop brings the order of all ranges and points
        let _first = s.first(RangeNumber(0));
        Ok(sweep_marks(k, &weights, marks))
    }
}

// Marks each point whose weight makes the sum heavy, which then starts again; answers how many.
fn sweep_marks<S: Space>(k: u16, weights: &Weights<'_, S>, marks: &mut [u8]) -> u16
    requires { length marks.old ≡ length weights.now.each.now }
    ensures marks { marks.new ≡ sweep_net k weights.now.each.now }
    ensures count { result ≡ chosen marks.new }
{
    let each = weights.each();
    let mut count: u16 = 0;
    let mut sum: u64 = 0;
    for (p, mark) in marks.iter_mut().enumerate() {
        sum += each[p];
        let full = is_heavy(k, sum, weights.total());
        write_mark(mark, full);
        if full {
            count += 1;
            sum = 0;
        }
    }
    count
}

// Writes 1 for a marked point, 0 for another.
fn write_mark(mark: &mut u8, chosen: bool)
    ensures { mark.new ≡ (if chosen then 1 else 0) }
{
    *mark = u8::from(chosen);
}
