ghost use Rattle.std.specs.Prelude.{◌≡◌};
ghost use Rattle.shapes.specs.Coordinates.{beyond_limits, between};

// The least and the largest coordinate, in 0.01 mm.
pub const LEAST: i32 = -1000000;

pub const LARGEST: i32 = 1000000;

// Whether a coordinate lies beyond its limits.
pub fn is_beyond(x: i32) -> bool
    ensures { result ≡ beyond_limits x }
{
    x < LEAST || x > LARGEST
}

// Whether x lies between two ends, which both belong to what is between them.
pub fn is_between(low: i32, x: i32, high: i32) -> bool
    ensures { result ≡ between low x high }
{
    low <= x && x <= high
}
