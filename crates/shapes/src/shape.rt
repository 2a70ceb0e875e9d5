ghost use Rattle.std.specs.Prelude.{◌≡◌, false, []};
ghost use Rattle.shapes.specs.Lists.{ShapeOf};

// A shape of ranges: which points a range holds, and what is refused of a list.
pub trait Shape {
    type Point;

    ghost shape: { ShapeOf Self.Point Self };

    fn holds(&self, p: &Self::Point) -> bool
        ensures { result ≡ shape.holds self.now p.now };

    fn is_point_beyond(p: &Self::Point) -> bool
        ensures { result ≡ shape.point_beyond p.now };

    fn is_beyond(&self) -> bool
        ensures { result ≡ shape.range_beyond self.now };

    fn is_reversed(&self) -> bool
        ensures { result ≡ shape.reversed self.now };

    fn is_disordered(points: &[Self::Point]) -> bool
        ensures { result ≡ shape.disordered points.now };

    // A list without points is in order.
    ghost none_disordered: { shape.disordered [] ≡ false };
}
