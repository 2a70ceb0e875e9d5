// One call of a finder, and what the verifiers then say.
use crate::verdict::{Verdicts, judge};
use nets::finder::Finder;
use ranges::hit::is_marked;
use ranges::number::PointNumber;
use ranges::space::Space;
use shapes::shape::Shape;
use std::alloc::{AllocError, Global};

// The name of a case, and the weights and guesses to try on it.
#[derive(Clone, Copy)]
pub struct Trial<'a> {
    pub name: &'a str,
    pub weights: &'a [u64],
    pub guesses: &'a [u16],
}

// A job, and what to try on it.
pub struct Case<R: Shape + 'static> {
    pub points: &'static [R::Point],
    pub ranges: &'static [R],
    pub trial: Trial<'static>,
}

// One guess of a trial under the finder that it names.
#[derive(Clone, Copy)]
struct Guess<'a> {
    who: &'a str,
    trial: Trial<'a>,
    k: u16,
}

// What one call of a finder gave.
#[derive(Drop)]
struct Found {
    bound: u32,
    count: u16,
    marks: Vec<u8>,
}

pub fn try_guesses<'a, S: Space, F: Finder<S>>(
    rt: &HostRuntime,
    who: &'a str,
    finder: &F,
    space: &S,
    trial: Trial<'a>,
) -> anyhow::Result<()> {
    for k in trial.guesses {
        try_guess(rt, finder, space, Guess { who, trial, k: *k })?;
    }
    Ok(())
}

fn try_guess<S: Space, F: Finder<S>>(
    rt: &HostRuntime,
    finder: &F,
    space: &S,
    guess: Guess<'_>,
) -> anyhow::Result<()> {
    let found = find_net(rt.alloc(), finder, space, guess)?;
    let points = marked_points(rt.alloc(), space, &found.marks)?;
    let verdicts = judge(space, &found.marks, guess.trial.weights);
    show_found(rt, guess, &found, &points, verdicts)
}

// The buffers hold bytes of an earlier call, which must not show.
fn find_net<S: Space, F: Finder<S>>(
    heap: Global,
    finder: &F,
    space: &S,
    guess: Guess<'_>,
) -> anyhow::Result<Found> {
    let n = space.points();
    let m = space.ranges();
    let bound = finder.bound(n, m, guess.k);
    let mut marks = vec![in heap; 1u8; n as usize]?;
    let mut scratch = vec![in heap; 1u8; finder.need(n, m)]?;
    let count = finder.find(
        space,
        guess.k,
        guess.trial.weights,
        &mut marks,
        &mut scratch,
    )?;
    Ok(Found {
        bound,
        count,
        marks,
    })
}

fn show_found(
    rt: &HostRuntime,
    guess: Guess<'_>,
    found: &Found,
    points: &[u16],
    verdicts: Verdicts,
) -> anyhow::Result<()> {
    let Guess { who, trial, k } = guess;
    let name = trial.name;
    let bound = found.bound;
    let count = found.count;
    println!(rt; "{who}, {name}, guess {k}: bound {bound}, marks {count}: {points:?}; {verdicts}")?;
    Ok(())
}

// The numbers of the marked points.
fn marked_points<S: Space>(heap: Global, space: &S, marks: &[u8]) -> Result<Vec<u16>, AllocError> {
    (0..space.points())
        .filter(|p| is_marked(marks, PointNumber(*p)))
        .collect(heap)
}
