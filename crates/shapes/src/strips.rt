ghost use Rattle.shapes.specs.Strips.{first_point, end_point};

use crate::lists::Lists;
use crate::strip_range::StripRange;
use ranges::number::RangeNumber;
use ranges::space::OrderedSpace;

// The space of strips over points of a web.
pub type Strips<'a> = Lists<'a, StripRange>;

// As the points ascend, those before either end of a strip stand in front, and halving counts them.
impl<'a> OrderedSpace for Strips<'a> {
    ghost first_of = { λ s j. first_point s.points.now s.ranges.now j };

    ghost end_of = { λ s j. end_point s.points.now s.ranges.now j };

    fn first(&self, j: RangeNumber) -> u16 {
        match self.ranges.get(j.0 as usize) {
            Some(strip) => self.points.partition_point(|p| p.x < strip.a) as u16,
            None => 0,
        }
    }

    fn end(&self, j: RangeNumber) -> u16 {
        match self.ranges.get(j.0 as usize) {
            Some(strip) => self.points.partition_point(|p| p.x <= strip.b) as u16,
            None => 0,
        }
    }
}
