ghost use Rattle.std.specs.Prelude.{◌≡◌, ◌≤◌, false, ◌||◌, length};
ghost use Rattle.std.specs.List.{list_any};
ghost use Rattle.shapes.specs.Limits.{lists_within};
ghost use Rattle.shapes.specs.Lists.{lists_check, lists_space, lists_meaning};
ghost use Rattle.shapes.specs.declared.lists.TheConstants.{MOST_POINTS, MOST_RANGES};

use crate::shape::Shape;
use ranges::number::{PointNumber, RangeNumber};
use ranges::refusal::Refusal;
use ranges::space::Space;
use std::alloc::AllocError;

// The most points and the most ranges of a space.
pub const MOST_POINTS: usize = 4096;

pub const MOST_RANGES: usize = 16384;

// The space of lent lists; refused lists give a space without points and ranges.
pub struct Lists<'a, R: Shape> {
    pub(crate) points: &'a [R::Point],
    pub(crate) ranges: &'a [R],
    ghost few_points: { length points.now ≤ MOST_POINTS },
    ghost few_ranges: { length ranges.now ≤ MOST_RANGES },
    ghost ordered: { R.shape.disordered points.now ≡ false },
}

// Whether a point or a range has a coordinate beyond the limits.
fn any_beyond<R: Shape>(points: &[R::Point], ranges: &[R]) -> bool
    ensures { result ≡ (list_any R.shape.point_beyond points.now || list_any R.shape.range_beyond ranges.now) }
{
    points.iter().any(|p| R::is_point_beyond(p)) || ranges.iter().any(|r| r.is_beyond())
}

// Whether a range is reversed, or the points are out of order.
fn any_reversed<R: Shape>(points: &[R::Point], ranges: &[R]) -> bool
    ensures { result ≡ (list_any R.shape.reversed ranges.now || R.shape.disordered points.now) }
{
    ranges.iter().any(|r| r.is_reversed()) || R::is_disordered(points)
}

// The check of the two lists: each cause over everything, in number order.
pub fn check_lists<R: Shape>(points: &[R::Point], ranges: &[R]) -> Result<(), Refusal>
    ensures { result ≡ lists_check R.shape points.now ranges.now }
{
    if points.len() > MOST_POINTS || ranges.len() > MOST_RANGES {
        return Err(Refusal::CountAboveLimit);
    }
    if any_beyond(points, ranges) {
        return Err(Refusal::CoordinateBeyondLimits);
    }
    if any_reversed(points, ranges) {
        return Err(Refusal::Reversed);
    }
    Ok(())
}

// By hand, since a derive would ask the same of the shape.
impl<'a, R: Shape> Clone for Lists<'a, R> {
    ghost is_clone = { λ x y. y ≡ x };

    ghost is_infallible = { λ _. Unit {0} };

    fn clone(&self) -> Result<Self, AllocError> {
        Ok(*self)
    }
}

impl<'a, R: Shape> Copy for Lists<'a, R> {}

impl<'a, R: Shape> Lists<'a, R> {
    pub fn new(points: &'a [R::Point], ranges: &'a [R]) -> Lists<'a, R>
        ensures { lists_space R.shape result.points.now result.ranges.now ≡ lists_meaning R.shape points.now ranges.now }
    {
        match check_lists(points, ranges) {
            Ok(()) => Lists { points, ranges },
            Err(_) => Lists {
                points: &[],
                ranges: &[],
            },
        }
    }
}

impl<'a, R: Shape> Space for Lists<'a, R> {
    ghost meaning = { λ s. lists_space R.shape s.points.now s.ranges.now };

    ghost within = { λ s. lists_within R.shape s.points.now s.ranges.now s.few_points s.few_ranges };

    fn points(&self) -> u16 {
        self.points.len() as u16
    }

    fn ranges(&self) -> u16 {
        self.ranges.len() as u16
    }

    fn holds(&self, j: RangeNumber, p: PointNumber) -> bool {
        let range = self.ranges.get(j.0 as usize);
        let point = self.points.get(p.0 as usize);
        range.zip(point).is_some_and(|(r, p)| r.holds(p))
    }
}
