ghost use Rattle.std.specs.Prelude.{◌≡◌, if◌then◌else◌};
ghost use Rattle.ledgers.specs.Doublings.{capped_doubled, capped_points, weight_doubled};

use ranges::hit::{HeldBy, PointSet};
use ranges::number::{PointNumber, RangeNumber};
use ranges::space::Space;

// Doubles the weight of each point of range j; a weight past 64 bits stays at the largest number.
pub fn double_range<S: Space>(s: &S, j: RangeNumber, weights: &mut [u64])
    ensures { weights.new ≡ capped_doubled (S.Space.meaning s.now) j.0 weights.old }
{
    double_points(s.points(), &HeldBy(s, j), weights);
}

// Doubles the weight of each of the n points that the set has; a weight past 64 bits stays at the largest number.
pub fn double_points<P: PointSet>(n: u16, set: &P, weights: &mut [u64])
    ensures { weights.new ≡ capped_points n (P.PointSet.members set.now) weights.old }
{
    // by number, since the set is asked by number and the weights may be fewer or more
    for p in 0..n {
        double_member(set, PointNumber(p), weights);
    }
}

// Doubles the weight of point p, if the set has it.
fn double_member<P: PointSet>(set: &P, p: PointNumber, weights: &mut [u64])
    ensures { weights.new ≡ (if P.PointSet.members set.now p.0 then weight_doubled weights.old p.0 else weights.old) }
{
    if set.contains(p) {
        double_weight(weights, p);
    }
}

fn double_weight(weights: &mut [u64], p: PointNumber)
    ensures { weights.new ≡ weight_doubled weights.old p.0 }
{
    let i = p.0 as usize;
    if i < weights.len() {
        weights[i] = weights[i].saturating_mul(2);
    }
}
