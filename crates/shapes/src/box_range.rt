ghost use Rattle.std.specs.Prelude.{refl};
ghost use Rattle.shapes.specs.Boxes.{box_shape};

use crate::coordinate::{is_between, is_beyond};
use crate::shape::Shape;

// A point of the plane, in 0.01 mm.
#[derive(Clone, Copy, Debug, PartialEq, Eq)]
pub struct BoxPoint {
    pub x: i32,
    pub y: i32,
}

// A closed box: x0 ≤ x1 and y0 ≤ y1.
#[derive(Clone, Copy, Debug, PartialEq, Eq)]
pub struct BoxRange {
    pub x0: i32,
    pub y0: i32,
    pub x1: i32,
    pub y1: i32,
}

// The edges of a box belong to it; its points may come in any order.
impl Shape for BoxRange {
    type Point = BoxPoint;

    ghost shape = { box_shape };

    fn holds(&self, p: &BoxPoint) -> bool {
        is_between(self.x0, p.x, self.x1) && is_between(self.y0, p.y, self.y1)
    }

    fn is_point_beyond(p: &BoxPoint) -> bool {
        is_beyond(p.x) || is_beyond(p.y)
    }

    fn is_beyond(&self) -> bool {
        is_beyond(self.x0) || is_beyond(self.y0) || is_beyond(self.x1) || is_beyond(self.y1)
    }

    fn is_reversed(&self) -> bool {
        self.x0 > self.x1 || self.y0 > self.y1
    }

    fn is_disordered(_points: &[BoxPoint]) -> bool {
        false
    }

    ghost none_disordered = { refl };
}
