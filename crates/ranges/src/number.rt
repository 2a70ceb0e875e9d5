ghost use Rattle.std.specs.Prelude.{decimal, Some};

use std::fmt;

// The number of a point, from 0.
#[derive(Clone, Copy, Debug, PartialEq, Eq, PartialOrd, Ord, Hash)]
pub struct PointNumber(pub u16);

// The number of a range, from 0.
#[derive(Clone, Copy, Debug, PartialEq, Eq, PartialOrd, Ord, Hash)]
pub struct RangeNumber(pub u16);

// The two wrap alike, so that no call takes one where the other is due; one type over both would need a tag.
impl fmt::Display for PointNumber {
    ghost output = { λ p. Some (decimal p.0) };

    fn fmt<W: fmt::Write>(&self, f: &mut fmt::Formatter<W>) -> fmt::Result {
        let p = self.0;
        write!(f, "{p}")
    }
}

impl fmt::Display for RangeNumber {
    ghost output = { λ j. Some (decimal j.0) };

    fn fmt<W: fmt::Write>(&self, f: &mut fmt::Formatter<W>) -> fmt::Result {
        let j = self.0;
        write!(f, "{j}")
    }
}
