ghost use Rattle.std.specs.Prelude.{◌≡◌, ◌<◌, ◌≤◌, MatchResult};
ghost use Rattle.ranges.specs.declared.refusal.Refusal.TheVariants.{CountAboveLimit};
ghost use Rattle.foreign.specs.RingLimits.{ring_within};
ghost use Rattle.foreign.specs.Rings.{ring_space, steps_on};

use ranges::number::{PointNumber, RangeNumber};
use ranges::refusal::Refusal;
use ranges::space::Space;

// Points on a circle; from each a range goes on for `reach` steps, round the end where it has to.
#[derive(Clone, Copy)]
pub struct Ring {
    points: u16,
    reach: u16,
    ghost few: { points ≤ 4096 },
}

impl Ring {
    pub fn new(points: u16, reach: u16) -> Result<Ring, Refusal>
        ensures { MatchResult result (λ ring. (points ≤ 4096) × (ring.points ≡ points) × (ring.reach ≡ reach)) (λ e. (4096 < points) × (e ≡ CountAboveLimit)) }
    {
        if points > 4096 {
            return Err(Refusal::CountAboveLimit);
        }
        Ok(Ring { points, reach })
    }

    // The steps from point j on to point p.
    fn steps_on(&self, j: u16, p: u16) -> u16
        requires { (j < self.now.points) × (p < self.now.points) }
        ensures { result ≡ steps_on self.now.points j p }
    {
        if j <= p { p - j } else { p + self.points - j }
    }
}

impl Space for Ring {
    ghost meaning = { λ ring. ring_space ring.points ring.reach };

    ghost within = { λ ring. ring_within ring.points ring.reach ring.few };

    fn points(&self) -> u16 {
        self.points
    }

    fn ranges(&self) -> u16 {
        self.points
    }

    fn holds(&self, j: RangeNumber, p: PointNumber) -> bool {
        j.0 < self.points && p.0 < self.points && self.steps_on(j.0, p.0) <= self.reach
    }
}
