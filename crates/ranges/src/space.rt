ghost use Rattle.std.specs.Prelude.{◌≡◌, ℕ};
ghost use Rattle.ranges.specs.Spaces.{RangeSpace, Within, Ordered};

use crate::number::{PointNumber, RangeNumber};

// A space: its points, its ranges, and which range holds which point.
pub trait Space {
    ghost meaning: { Self → RangeSpace };

    fn points(&self) -> u16
        ensures { result ≡ (meaning self.now).points };

    fn ranges(&self) -> u16
        ensures { result ≡ (meaning self.now).ranges };

    fn holds(&self, j: RangeNumber, p: PointNumber) -> bool
        ensures { result ≡ (meaning self.now).holds j.0 p.0 };

    // A space keeps its limits, and holds nothing beyond a count.
    ghost within: { (s : Self) → Within (meaning s) };
}

// A space whose every range is a stretch of consecutive points; either question promises that of all ranges and points.
pub trait OrderedSpace: Space {
    ghost first_of: { Self → ℕ → ℕ };

    ghost end_of: { Self → ℕ → ℕ };

    fn first(&self, j: RangeNumber) -> u16
        ensures value { result ≡ first_of self.now j.0 }
        ensures order { Ordered (Self.Space.meaning self.now) (first_of self.now) (end_of self.now) };

    fn end(&self, j: RangeNumber) -> u16
        ensures value { result ≡ end_of self.now j.0 }
        ensures order { Ordered (Self.Space.meaning self.now) (first_of self.now) (end_of self.now) };
}
