ghost use Rattle.std.specs.Prelude.{◌≡◌, ◌^◌, ◌≤◌, length, IfOk};
ghost use Rattle.ranges.specs.Refusals.{verdict_of};
ghost use Rattle.ranges.specs.Weights.{weight_at, total, range_weight, outweighs, heavy, capped, weights_check};

use crate::number::{PointNumber, RangeNumber};
use crate::refusal::Refusal;
use crate::space::Space;

// The most that a total of weights may be: 2^49.
pub const MOST_WEIGHT: u64 = 1 << 49;

// The weight of a point, 0 where there is none.
pub fn weight_at(weights: &[u64], p: PointNumber) -> u64
    ensures { result ≡ weight_at weights.now p.0 }
{
    weights.get(p.0 as usize).copied().unwrap_or(0)
}

// The total of all weights; a sum past 64 bits stays at the largest number.
pub fn total_weight(weights: &[u64]) -> u64
    ensures { result ≡ capped (total weights.now) }
{
    weights.iter().fold(0, |sum: u64, w| sum.saturating_add(*w))
}

// The total over the points of range j; a sum past 64 bits stays at the largest number.
// The question is asked inside the fold, since a filter before it takes a third more steps a point.
pub fn range_weight<S: Space>(s: &S, weights: &[u64], j: RangeNumber) -> u64
    ensures { result ≡ capped (range_weight (S.Space.meaning s.now) weights.now j.0) }
{
    (0..s.points()).map(PointNumber).fold(0, |sum: u64, p| {
        if s.holds(j, p) {
            sum.saturating_add(weight_at(weights, p))
        } else {
            sum
        }
    })
}

// Whether a range of this weight is heavy for guess k.
pub fn is_heavy(k: u16, weight: u64, total: u64) -> bool
    ensures { result ≡ outweighs k weight total }
{
    2 * k as u128 * weight as u128 > total as u128
}

// The weights of a space's points after their check: one for each point, and a total of at most 2^49.
#[derive(Drop)]
pub struct Weights<'a, S: Space> {
    space: &'a S,
    each: &'a [u64],
    whole: u64,
    ghost long: { length each.now ≡ (S.Space.meaning space.now).points },
    ghost added: { whole ≡ total each.now },
    ghost small: { whole ≤ 2 ^ 49 },
}

impl<'a, S: Space> Weights<'a, S> {
    pub fn new(space: &'a S, each: &'a [u64]) -> Result<Weights<'a, S>, Refusal>
        ensures check { verdict_of result ≡ weights_check (S.Space.meaning space.now) each.now }
        ensures given { IfOk result (λ w. (w.each.now ≡ each.now) × (S.Space.meaning w.space.now ≡ S.Space.meaning space.now)) }
    {
        if each.len() != space.points() as usize {
            return Err(Refusal::WrongLength);
        }
        let whole = total_weight(each);
        if whole > MOST_WEIGHT {
            return Err(Refusal::WrongTotal);
        }
        Ok(Weights { space, each, whole })
    }

    // The space whose points are weighed.
    pub fn space(&self) -> &'a S
        ensures { result.now ≡ self.now.space.now }
    {
        self.space
    }

    // The weight of each point.
    pub fn each(&self) -> &'a [u64]
        ensures { result.now ≡ self.now.each.now }
    {
        self.each
    }

    // W, the total.
    pub fn total(&self) -> u64
        ensures { result ≡ total self.now.each.now }
    {
        self.whole
    }

    // w(R) of range j.
    pub fn of_range(&self, j: RangeNumber) -> u64
        ensures { result ≡ range_weight (S.Space.meaning self.now.space.now) self.now.each.now j.0 }
    {
        range_weight(self.space, self.each, j)
    }

    // Whether range j is heavy for guess k.
    pub fn is_heavy(&self, k: u16, j: RangeNumber) -> bool
        ensures { result ≡ heavy (S.Space.meaning self.now.space.now) k self.now.each.now j.0 }
    {
        is_heavy(k, self.of_range(j), self.whole)
    }
}
