ghost use Rattle.std.specs.Prelude.{◌≡◌, ℕ, Bool, true};
ghost use Rattle.ranges.specs.Weights.{marked, hit, lowest_missed, range_of};

use crate::number::{PointNumber, RangeNumber};
use crate::space::Space;

// A set of points.
pub trait PointSet {
    ghost members: { Self → ℕ → Bool };

    fn contains(&self, p: PointNumber) -> bool
        ensures { result ≡ members self.now p.0 };
}

// The set of all points.
#[derive(Clone, Copy)]
pub struct AllPoints;

// The set of the marked points: those whose byte is 1.
#[derive(Clone, Copy)]
pub struct Marked<'a>(pub &'a [u8]);

// The set of the points that a range holds.
#[derive(Drop)]
pub struct HeldBy<'a, S>(pub &'a S, pub RangeNumber);

impl PointSet for AllPoints {
    ghost members = { λ _ _. true };

    fn contains(&self, _p: PointNumber) -> bool {
        true
    }
}

impl<'a> PointSet for Marked<'a> {
    ghost members = { λ s. marked s.0.now };

    fn contains(&self, p: PointNumber) -> bool {
        is_marked(self.0, p)
    }
}

impl<'a, S: Space> PointSet for HeldBy<'a, S> {
    ghost members = { λ h. (S.Space.meaning h.0.now).holds h.1.0 };

    fn contains(&self, p: PointNumber) -> bool {
        self.0.holds(self.1, p)
    }
}

// Whether a point is marked: its byte is 1.
pub fn is_marked(marks: &[u8], p: PointNumber) -> bool
    ensures { result ≡ marked marks.now p.0 }
{
    marks.get(p.0 as usize).is_some_and(|byte| *byte == 1)
}

// Whether range j holds a point of the set.
pub fn is_hit<S: Space, P: PointSet>(s: &S, set: &P, j: RangeNumber) -> bool
    ensures { result ≡ hit (S.Space.meaning s.now) (P.PointSet.members set.now) j.0 }
{
    (0..s.points())
        .map(PointNumber)
        .any(|p| set.contains(p) && s.holds(j, p))
}

// The range with the lowest number that holds no point of the set.
pub fn lowest_missed<S: Space, P: PointSet>(s: &S, set: &P) -> Option<RangeNumber>
    ensures { range_of result ≡ lowest_missed (S.Space.meaning s.now) (P.PointSet.members set.now) }
{
    (0..s.ranges())
        .map(RangeNumber)
        .find(|j| !is_hit(s, set, *j))
}
