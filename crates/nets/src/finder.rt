ghost use Rattle.std.specs.Prelude.{◌≡◌, length, IfOk};
ghost use Rattle.ranges.specs.Refusals.{verdict_of};
ghost use Rattle.nets.specs.Finders.{FinderMeaning, find_check, FoundMarks, found_scratch, FinderSound};

use ranges::refusal::Refusal;
use ranges::space::Space;
use ranges::weight::Weights;

// Marks points that hit every heavy range of a space, for a guess and weights.
pub trait Finder<S: Space> {
    ghost promise: { Self → FinderMeaning };

    // At most how many points it marks, for n points, m ranges and guess k.
    fn bound(&self, n: u16, m: u16, k: u16) -> u32
        ensures { result ≡ (promise self.now).bound n m k };

    // How many bytes of scratch it needs, for n points and m ranges.
    fn need(&self, n: u16, m: u16) -> usize
        ensures { result ≡ (promise self.now).need n m };

    fn find(
        &self,
        s: &S,
        k: u16,
        weights: &[u64],
        marks: &mut [u8],
        scratch: &mut [u8],
    ) -> Result<u16, Refusal>
        ensures check { verdict_of result ≡ find_check (S.Space.meaning s.now) k weights.now (length marks.old) (length scratch.old) ((promise self.now).need (S.Space.meaning s.now).points (S.Space.meaning s.now).ranges) }
        ensures marks { FoundMarks (promise self.now) (S.Space.meaning s.now) k weights.now result marks.old marks.new }
        ensures scratch { scratch.new ≡ found_scratch result ((promise self.now).need (S.Space.meaning s.now).points (S.Space.meaning s.now).ranges) scratch.old };

    ghost sound: { (f : Self) → FinderSound (promise f) };
}

// The checks of every finder, in number order; passed, they give the weights with their total.
pub fn check_find<'a, S: Space>(
    s: &'a S,
    k: u16,
    weights: &'a [u64],
    marks: usize,
    scratch: usize,
    need: usize,
) -> Result<Weights<'a, S>, Refusal>
    ensures check { verdict_of result ≡ find_check (S.Space.meaning s.now) k weights.now marks scratch need }
    ensures given { IfOk result (λ w. (w.each.now ≡ weights.now) × (S.Space.meaning w.space.now ≡ S.Space.meaning s.now)) }
{
    let n = s.points();
    if weights.len() != n as usize || marks != n as usize {
        return Err(Refusal::WrongLength);
    }
    if k == 0 || k > n {
        return Err(Refusal::GuessOutOfRange);
    }
    if scratch < need {
        return Err(Refusal::ShortScratch);
    }
    Weights::new(s, weights)
}
