// The refusals of finders and verifiers.
use greedy::greedy::Greedy;
use nets::finder::Finder;
use nets::lightest::Lightest;
use nets::sweep::Sweep;
use nets::verifier::{Lowest, Verifier};
use ranges::refusal::answer_number;
use shapes::strip_range::{StripPoint, StripRange};
use shapes::strips::Strips;

static POINTS: [StripPoint; 3] = [
    StripPoint { x: 0 },
    StripPoint { x: 5 },
    StripPoint { x: 9 },
];

static STRIPS: [StripRange; 2] = [StripRange { a: 0, b: 5 }, StripRange { a: 6, b: 9 }];

const MOST: u64 = 562949953421312;

// One call of a finder on marks that hold 7 before and scratch that holds 9.
struct Find {
    what: &'static str,
    k: u16,
    weights: &'static [u64],
    marks: usize,
    scratch: usize,
}

// A call that is accepted with scratch of one byte to a range; each case changes what it names.
const PLAIN: Find = Find {
    what: "accepted",
    k: 1,
    weights: &[1, 1, 1],
    marks: 3,
    scratch: 2,
};

static FINDS: [Find; 19] = [
    PLAIN,
    Find {
        what: "weights too short",
        weights: &[1, 1],
        ..PLAIN
    },
    Find {
        what: "weights too long, guess 0",
        k: 0,
        weights: &[1, 1, 1, 1],
        ..PLAIN
    },
    Find {
        what: "marks too short",
        marks: 2,
        ..PLAIN
    },
    Find {
        what: "marks too long, guess 0",
        k: 0,
        marks: 4,
        ..PLAIN
    },
    Find {
        what: "guess 0",
        k: 0,
        ..PLAIN
    },
    Find {
        what: "guess n",
        k: 3,
        ..PLAIN
    },
    Find {
        what: "guess above n",
        k: 4,
        ..PLAIN
    },
    Find {
        what: "guess above n, no scratch, total too large",
        k: 4,
        weights: &[MOST, 1, 0],
        scratch: 0,
        ..PLAIN
    },
    Find {
        what: "guess above n, total too large",
        k: 4,
        weights: &[MOST, 1, 0],
        ..PLAIN
    },
    Find {
        what: "scratch one byte short",
        scratch: 1,
        ..PLAIN
    },
    Find {
        what: "scratch one byte short, total too large",
        weights: &[MOST, 1, 0],
        scratch: 1,
        ..PLAIN
    },
    Find {
        what: "scratch of two bytes more",
        scratch: 4,
        ..PLAIN
    },
    Find {
        what: "total 2^49",
        weights: &[MOST - 1, 1, 0],
        ..PLAIN
    },
    Find {
        what: "total 2^49 + 1",
        weights: &[MOST, 1, 0],
        ..PLAIN
    },
    Find {
        what: "one weight of 2^64 - 1",
        weights: &[u64::MAX, 0, 0],
        ..PLAIN
    },
    Find {
        what: "weights that would wrap",
        weights: &[u64::MAX, 1, 0],
        ..PLAIN
    },
    Find {
        what: "three of 2^64 - 1",
        weights: &[u64::MAX, u64::MAX, u64::MAX],
        ..PLAIN
    },
    Find {
        what: "all weights 0",
        weights: &[0, 0, 0],
        ..PLAIN
    },
];

// A refusal leaves marks and scratch; greedy zeroes the scratch that it needs.
pub fn finder_calls(rt: &HostRuntime) -> anyhow::Result<()> {
    for find in &FINDS {
        say_find(rt, "sweep", &Sweep, find)?;
    }
    for find in &FINDS {
        say_find(rt, "greedy", &Greedy, find)?;
    }
    Ok(())
}

fn say_find<F: Finder<Strips<'static>>>(
    rt: &HostRuntime,
    who: &str,
    finder: &F,
    find: &Find,
) -> anyhow::Result<()> {
    let what = find.what;
    let mut marks = vec![in rt.alloc(); 7u8; find.marks]?;
    let mut scratch = vec![in rt.alloc(); 9u8; find.scratch]?;
    let space = Strips::new(&POINTS, &STRIPS);
    let found = finder.find(&space, find.k, find.weights, &mut marks, &mut scratch);
    let number = answer_number(&found);
    println!(rt; "{who}, {what}: {number}, marks {marks:?}, scratch {scratch:?}")?;
    Ok(())
}

// One call of each verifier.
struct Judge {
    what: &'static str,
    marks: &'static [u8],
    weights: &'static [u64],
}

static JUDGES: [Judge; 7] = [
    Judge {
        what: "accepted",
        marks: &[0, 0, 0],
        weights: &[1, 1, 1],
    },
    Judge {
        what: "marks too short",
        marks: &[0, 0],
        weights: &[1, 1, 1],
    },
    Judge {
        what: "marks too long",
        marks: &[0, 0, 0, 0],
        weights: &[1, 1, 1],
    },
    Judge {
        what: "weights too short, total too large",
        marks: &[0, 0, 0],
        weights: &[MOST, 1],
    },
    Judge {
        what: "total 2^49",
        marks: &[0, 0, 0],
        weights: &[MOST, 0, 0],
    },
    Judge {
        what: "total 2^49 + 1",
        marks: &[0, 0, 0],
        weights: &[MOST, 1, 0],
    },
    Judge {
        what: "weights that would wrap",
        marks: &[0, 0, 0],
        weights: &[u64::MAX, u64::MAX, 2],
    },
];

pub fn verifier_calls(rt: &HostRuntime) -> anyhow::Result<()> {
    for judge in &JUDGES {
        say_judge(rt, judge)?;
    }
    Ok(())
}

fn say_judge(rt: &HostRuntime, judge: &Judge) -> anyhow::Result<()> {
    let what = judge.what;
    let space = Strips::new(&POINTS, &STRIPS);
    let lowest = answer_number(&Lowest.judge(&space, judge.marks, judge.weights));
    let lightest = answer_number(&Lightest.judge(&space, judge.marks, judge.weights));
    println!(rt; "lowest and lightest, {what}: {lowest} {lightest}")?;
    Ok(())
}
