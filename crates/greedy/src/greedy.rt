ghost use Rattle.std.specs.Prelude.{◌≡◌, ◌^◌, ◌<◌, ◌≤◌, min, max, ◌&&◌, length, replicate, if◌then◌else◌, ◌==◌, nat_lt};
ghost use Rattle.ranges.specs.Below.{count_below};
ghost use Rattle.ranges.specs.Weights.{total, heavy, chosen, tabulated};
ghost use Rattle.nets.specs.Finders.{Asked};
ghost use Rattle.greedy.specs.Greedy.{digits, adding, greedy_points, greedy_net, greedy_bound, greedy_finder};
ghost use Rattle.greedy.specs.Flags.{bit, flag_gain, flag_best, lowered, taken, Tells, Known, one_less, less_held};
ghost use Rattle.greedy.specs.Law.{greedy_sound};

use nets::finder::{Finder, check_find};
use ranges::number::{PointNumber, RangeNumber};
use ranges::refusal::Refusal;
use ranges::space::Space;
use ranges::weight::Weights;

// A flag that is up: the range is heavy and not yet hit.
const UNHIT: u8 = 1;

// During a call a point's byte is its gain up to 253; this one says that the gain is not known or larger. Bytes and no enum, since the caller's marks are all the memory there is.
const UNKNOWN: u8 = 254;

// During a call, the byte of a marked point.
const MARKED: u8 = 255;

// Marks the point that lies in most heavy ranges not yet hit, the lowest number among equals, while there are such ranges.
#[derive(Clone, Copy)]
pub struct Greedy;

impl<S: Space> Finder<S> for Greedy {
    ghost promise = { λ _. greedy_finder };

    ghost sound = { λ f. greedy_sound };

    fn bound(&self, n: u16, m: u16, k: u16) -> u32 {
        most_marks(n, m, k)
    }

    fn need(&self, _n: u16, m: u16) -> usize {
        m as usize
    }

    fn find(
        &self,
        s: &S,
        k: u16,
        weights: &[u64],
        marks: &mut [u8],
        scratch: &mut [u8],
    ) -> Result<u16, Refusal> {
        let need = s.ranges() as usize;
        let weights = check_find(s, k, weights, marks.len(), scratch.len(), need)?;
        Ok(mark_net(&weights, k, marks, &mut scratch[0..need]))
    }
}

// The smaller of n and 2·k·b, where b counts the digits of m.
fn most_marks(n: u16, m: u16, k: u16) -> u32
    ensures { result ≡ greedy_bound n m k }
{
    (2 * k as u32 * digit_count(m)).min(n as u32)
}

// The count of binary digits, none for 0.
fn digit_count(m: u16) -> u32
    ensures value { result ≡ digits m }
    ensures few { result ≤ 16 }
{
    16 - m.leading_zeros()
}

// Marks the net; answers how many points it has. Flags and marks stay two slices with their lengths as clauses: a struct of both loans needs a clause for each loan, which is as many.
fn mark_net<S: Space>(weights: &Weights<'_, S>, k: u16, marks: &mut [u8], flags: &mut [u8]) -> u16
    requires asked { Asked (S.Space.meaning weights.now.space.now) k weights.now.each.now }
    requires wide { length flags.old ≡ (S.Space.meaning weights.now.space.now).ranges }
    requires long { length marks.old ≡ (S.Space.meaning weights.now.space.now).points }
    ensures marks { marks.new ≡ greedy_net (S.Space.meaning weights.now.space.now) k weights.now.each.now }
    ensures count { result ≡ chosen marks.new }
    ensures flags { flags.new ≡ replicate (S.Space.meaning weights.now.space.now).ranges 0 }
{
    let count = cover_heavy(weights, k, marks, flags);
    settle_marks(marks);
    count
}

// Marks points by their bytes until every heavy range is hit; answers how many.
fn cover_heavy<S: Space>(
    weights: &Weights<'_, S>,
    k: u16,
    marks: &mut [u8],
    flags: &mut [u8],
) -> u16
    requires asked { Asked (S.Space.meaning weights.now.space.now) k weights.now.each.now }
    requires wide { length flags.old ≡ (S.Space.meaning weights.now.space.now).ranges }
    requires long { length marks.old ≡ (S.Space.meaning weights.now.space.now).points }
    ensures flags { flags.new ≡ replicate (S.Space.meaning weights.now.space.now).ranges 0 }
    ensures points { taken marks.new ≡ greedy_points (S.Space.meaning weights.now.space.now) k weights.now.each.now }
    ensures count { result ≡ count_below (greedy_points (S.Space.meaning weights.now.space.now) k weights.now.each.now) (S.Space.meaning weights.now.space.now).points }
{
    let s = weights.space();
    let mut unhit = flag_heavy(weights, k, flags);
    marks.fill(UNKNOWN);
    let mut count: u16 = 0;
    while unhit > 0 {
        unhit -= mark_best(s, flags, marks);
        count += 1;
    }
    count
}

// Raises the flags of the heavy ranges; answers how many there are.
fn flag_heavy<S: Space>(weights: &Weights<'_, S>, k: u16, flags: &mut [u8]) -> u16
    requires wide { length flags.old ≡ (S.Space.meaning weights.now.space.now).ranges }
    ensures flags { flags.new ≡ tabulated (λ j. bit (heavy (S.Space.meaning weights.now.space.now) k weights.now.each.now j)) (S.Space.meaning weights.now.space.now).ranges }
    ensures count { result ≡ count_below (heavy (S.Space.meaning weights.now.space.now) k weights.now.each.now) (S.Space.meaning weights.now.space.now).ranges }
{
    let mut count: u16 = 0;
    for (j, flag) in flags.iter_mut().enumerate() {
        let heavy = weights.is_heavy(k, RangeNumber(j as u16));
        *flag = u8::from(heavy);
        count += u16::from(heavy);
    }
    count
}

// Marks the best point; answers how many flags are lowered.
fn mark_best<S: Space>(s: &S, flags: &mut [u8], marks: &mut [u8]) -> u16
    requires some { 0 < (S.Space.meaning s.now).points }
    requires wide { length flags.old ≡ (S.Space.meaning s.now).ranges }
    requires long { length marks.old ≡ (S.Space.meaning s.now).points }
    requires known { Known (S.Space.meaning s.now) flags.old marks.old }
    ensures flags { flags.new ≡ tabulated (lowered (S.Space.meaning s.now) (flag_best (S.Space.meaning s.now) flags.old) flags.old) (S.Space.meaning s.now).ranges }
    ensures taken { taken marks.new ≡ adding (taken marks.old) (flag_best (S.Space.meaning s.now) flags.old) }
    ensures known { Known (S.Space.meaning s.now) flags.new marks.new }
    ensures count { result ≡ flag_gain (S.Space.meaning s.now) flags.old (flag_best (S.Space.meaning s.now) flags.old) }
{
    let p = best_point(s, flags, marks);
    let hits = lower_flags(s, flags, marks, p);
    marks[p.0 as usize] = MARKED;
    hits
}

// The point with the largest gain, the lowest number among equals.
fn best_point<S: Space>(s: &S, flags: &[u8], marks: &mut [u8]) -> PointNumber
    requires wide { length flags.now ≡ (S.Space.meaning s.now).ranges }
    requires long { length marks.old ≡ (S.Space.meaning s.now).points }
    requires known { Known (S.Space.meaning s.now) flags.now marks.old }
    ensures point { result.0 ≡ flag_best (S.Space.meaning s.now) flags.now }
    ensures known { Known (S.Space.meaning s.now) flags.now marks.new }
    ensures taken { taken marks.new ≡ taken marks.old }
{
    let mut best = Best {
        point: PointNumber(0),
        gain: 0,
    };
    // by numbers of 16 bits, since `enumerate` would cast each back, and no proof goes through a zip with `iter_mut`
    for p in 0..s.points() {
        let point = PointNumber(p);
        let gain = known_gain(s, flags, point, &mut marks[p as usize]);
        best = better(best, Best { point, gain });
    }
    best.point
}

// The best point so far, and its gain.
#[derive(Clone, Copy)]
struct Best {
    point: PointNumber,
    gain: u16,
}

// A later point is better only with a larger gain.
fn better(best: Best, next: Best) -> Best
    ensures point { result.point.0 ≡ (if nat_lt best.gain next.gain then next.point.0 else best.point.0) }
    ensures gain { result.gain ≡ max best.gain next.gain }
{
    if next.gain > best.gain { next } else { best }
}

// The gain of point p: what its byte says, or counted where that says nothing.
fn known_gain<S: Space>(s: &S, flags: &[u8], p: PointNumber, byte: &mut u8) -> u16
    requires known { Tells byte.old (flag_gain (S.Space.meaning s.now) flags.now p.0) }
    ensures value { result ≡ flag_gain (S.Space.meaning s.now) flags.now p.0 }
    ensures known { Tells byte.new (flag_gain (S.Space.meaning s.now) flags.now p.0) }
    ensures taken { (byte.new == 255) ≡ (byte.old == 255) }
{
    if *byte == MARKED {
        return 0;
    }
    if *byte < UNKNOWN {
        return *byte as u16;
    }
    let gain = count_gain(s, flags, p);
    *byte = gain_byte(gain);
    gain
}

// The byte of a point whose gain was counted.
fn gain_byte(gain: u16) -> u8
    ensures { result ≡ min gain 254 }
{
    gain.min(UNKNOWN as u16) as u8
}

// How many ranges with their flag up hold point p. The question is asked inside the fold, as in a range's weight; there are too few ranges for the count to wrap.
fn count_gain<S: Space>(s: &S, flags: &[u8], p: PointNumber) -> u16
    ensures { result ≡ flag_gain (S.Space.meaning s.now) flags.now p.0 }
{
    (0..s.ranges())
        .map(RangeNumber)
        .zip(flags)
        .fold(0, |gain: u16, (j, flag)| {
            if adds_gain(s, *flag, j, p) {
                gain.wrapping_add(1)
            } else {
                gain
            }
        })
}

// Whether range j adds to the gain of point p.
fn adds_gain<S: Space>(s: &S, flag: u8, j: RangeNumber, p: PointNumber) -> bool
    ensures { result ≡ (flag == 1 && (S.Space.meaning s.now).holds j.0 p.0) }
{
    flag == UNHIT && s.holds(j, p)
}

// Lowers the flags of the ranges that hold point p, and the gains of their points; answers how many were up.
fn lower_flags<S: Space>(s: &S, flags: &mut [u8], marks: &mut [u8], p: PointNumber) -> u16
    requires wide { length flags.old ≡ (S.Space.meaning s.now).ranges }
    requires long { length marks.old ≡ (S.Space.meaning s.now).points }
    requires known { Known (S.Space.meaning s.now) flags.old marks.old }
    ensures flags { flags.new ≡ tabulated (lowered (S.Space.meaning s.now) p.0 flags.old) (S.Space.meaning s.now).ranges }
    ensures known { Known (S.Space.meaning s.now) flags.new marks.new }
    ensures taken { taken marks.new ≡ taken marks.old }
    ensures count { result ≡ flag_gain (S.Space.meaning s.now) flags.old p.0 }
{
    let mut gain: u16 = 0;
    // by number, as in `best_point`
    for j in 0..s.ranges() {
        if lower_flag(s, &mut flags[j as usize], RangeNumber(j), p) {
            lower_gains(s, marks, RangeNumber(j));
            gain += 1;
        }
    }
    gain
}

// Lowers the flag of range j where it adds to the gain of point p; says whether it does.
fn lower_flag<S: Space>(s: &S, flag: &mut u8, j: RangeNumber, p: PointNumber) -> bool
    ensures flag { flag.new ≡ (if result then 0 else flag.old) }
    ensures answer { result ≡ (flag.old == 1 && (S.Space.meaning s.now).holds j.0 p.0) }
{
    let lower = adds_gain(s, *flag, j, p);
    if lower {
        *flag = 0;
    }
    lower
}

// Lowers the gain of each point of range j.
fn lower_gains<S: Space>(s: &S, marks: &mut [u8], j: RangeNumber)
    requires { length marks.old ≡ (S.Space.meaning s.now).points }
    ensures { marks.new ≡ tabulated (less_held (S.Space.meaning s.now) j.0 marks.old) (S.Space.meaning s.now).points }
{
    // by number, as in `best_point`
    for p in 0..s.points() {
        lower_gain(s, &mut marks[p as usize], j, PointNumber(p));
    }
}

// Lowers the gain of point p where range j holds it and its byte says the gain.
fn lower_gain<S: Space>(s: &S, byte: &mut u8, j: RangeNumber, p: PointNumber)
    ensures { byte.new ≡ (if (S.Space.meaning s.now).holds j.0 p.0 then one_less byte.old else byte.old) }
{
    if s.holds(j, p) && *byte < UNKNOWN {
        *byte = byte.saturating_sub(1);
    }
}

// The marks at the end of a call.
fn settle_marks(marks: &mut [u8])
    ensures { marks.new ≡ tabulated (λ p. bit (taken marks.old p)) (length marks.old) }
{
    for byte in marks.iter_mut() {
        *byte = final_mark(*byte);
    }
}

// The byte of a point at the end of a call.
fn final_mark(byte: u8) -> u8
    ensures { result ≡ bit (byte == 255) }
{
    u8::from(byte == MARKED)
}
