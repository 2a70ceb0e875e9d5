ghost use Rattle.std.specs.Prelude.{refl};
ghost use Rattle.shapes.specs.Strips.{strip_shape};

use crate::coordinate::{is_between, is_beyond};
use crate::shape::Shape;

// A point of the web, in 0.01 mm along it.
#[derive(Clone, Copy, Debug, PartialEq, Eq)]
pub struct StripPoint {
    pub x: i32,
}

// A closed strip: a ≤ b.
#[derive(Clone, Copy, Debug, PartialEq, Eq)]
pub struct StripRange {
    pub a: i32,
    pub b: i32,
}

// The ends of a strip belong to it; no point lies before the one that it follows.
impl Shape for StripRange {
    type Point = StripPoint;

    ghost shape = { strip_shape };

    fn holds(&self, p: &StripPoint) -> bool {
        is_between(self.a, p.x, self.b)
    }

    fn is_point_beyond(p: &StripPoint) -> bool {
        is_beyond(p.x)
    }

    fn is_beyond(&self) -> bool {
        is_beyond(self.a) || is_beyond(self.b)
    }

    fn is_reversed(&self) -> bool {
        self.a > self.b
    }

    fn is_disordered(points: &[StripPoint]) -> bool {
        !points.is_sorted_by_key(|p| p.x)
    }

    ghost none_disordered = { refl };
}
