// Which range each verifier names, for marks and weights given by hand.
use crate::strip_cases::TENS;
use crate::verdict::judge;
use shapes::strip_range::StripRange;
use shapes::strips::Strips;

// Points 0 and 1, points 2 and 3, points 1 and 2.
const STRIPS: [StripRange; 3] = [
    StripRange { a: 0, b: 10 },
    StripRange { a: 20, b: 30 },
    StripRange { a: 10, b: 20 },
];

// Half the largest total, and a quarter of it.
const HALF: u64 = 281474976710656;

const QUARTER: u64 = 140737488355328;

struct Pick {
    name: &'static str,
    marks: [u8; 4],
    weights: [u64; 4],
}

static PICKS: [Pick; 12] = [
    Pick {
        name: "equal weights",
        marks: [0, 0, 0, 0],
        weights: [1, 1, 1, 1],
    },
    Pick {
        name: "the last range lightest",
        marks: [0, 0, 0, 0],
        weights: [5, 1, 1, 5],
    },
    Pick {
        name: "two equal ranges lightest",
        marks: [0, 0, 0, 0],
        weights: [5, 1, 1, 1],
    },
    Pick {
        name: "all weights 0",
        marks: [0, 0, 0, 0],
        weights: [0, 0, 0, 0],
    },
    Pick {
        name: "a range of weight 0",
        marks: [0, 0, 0, 0],
        weights: [1, 1, 0, 0],
    },
    Pick {
        name: "the lightest range hit",
        marks: [0, 0, 0, 1],
        weights: [5, 5, 1, 1],
    },
    Pick {
        name: "the lowest range hit",
        marks: [1, 0, 0, 0],
        weights: [1, 1, 1, 1],
    },
    Pick {
        name: "the last range missed",
        marks: [1, 0, 0, 1],
        weights: [1, 1, 1, 1],
    },
    Pick {
        name: "none missed",
        marks: [0, 1, 1, 0],
        weights: [1, 1, 1, 1],
    },
    Pick {
        name: "none missed, all weights 0",
        marks: [1, 1, 1, 1],
        weights: [0, 0, 0, 0],
    },
    Pick {
        name: "bytes other than 1",
        marks: [2, 2, 2, 255],
        weights: [5, 1, 1, 5],
    },
    Pick {
        name: "a total of 2^49",
        marks: [0, 0, 0, 0],
        weights: [HALF, 0, QUARTER, QUARTER],
    },
];

pub fn show_picks(rt: &HostRuntime) -> anyhow::Result<()> {
    for pick in &PICKS {
        show_pick(rt, pick)?;
    }
    Ok(())
}

fn show_pick(rt: &HostRuntime, pick: &Pick) -> anyhow::Result<()> {
    let space = Strips::new(&TENS, &STRIPS);
    let verdicts = judge(&space, &pick.marks, &pick.weights);
    let name = pick.name;
    println!(rt; "picks, {name}: {verdicts}")?;
    Ok(())
}
