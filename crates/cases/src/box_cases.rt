// Greedy on boxes.
use crate::try_guess::{Case, Trial, try_guesses};
use greedy::greedy::Greedy;
use shapes::box_range::{BoxPoint, BoxRange};
use shapes::boxes::Boxes;

// One point lies in all boxes, and every box holds as many points.
const TIES: Case<BoxRange> = Case {
    points: &[
        BoxPoint { x: 0, y: 0 },
        BoxPoint { x: 10, y: 0 },
        BoxPoint { x: 20, y: 0 },
        BoxPoint { x: 0, y: 10 },
        BoxPoint { x: 10, y: 10 },
        BoxPoint { x: 20, y: 10 },
        BoxPoint { x: 0, y: 20 },
        BoxPoint { x: 10, y: 20 },
        BoxPoint { x: 20, y: 20 },
    ],
    ranges: &[
        BoxRange {
            x0: 0,
            y0: 0,
            x1: 10,
            y1: 10,
        },
        BoxRange {
            x0: 10,
            y0: 10,
            x1: 20,
            y1: 20,
        },
        BoxRange {
            x0: 0,
            y0: 10,
            x1: 10,
            y1: 20,
        },
        BoxRange {
            x0: 10,
            y0: 0,
            x1: 20,
            y1: 10,
        },
    ],
    trial: Trial {
        name: "ties",
        weights: &[1; 9],
        guesses: &[1, 2, 3, 9],
    },
};

// Points on edges and corners, and a box that is one point.
const EDGES: Case<BoxRange> = Case {
    points: &[
        BoxPoint { x: 10, y: 10 },
        BoxPoint { x: 20, y: 20 },
        BoxPoint { x: 15, y: 10 },
        BoxPoint { x: 20, y: 15 },
        BoxPoint { x: 21, y: 15 },
    ],
    ranges: &[
        BoxRange {
            x0: 10,
            y0: 10,
            x1: 20,
            y1: 20,
        },
        BoxRange {
            x0: 20,
            y0: 10,
            x1: 21,
            y1: 20,
        },
        BoxRange {
            x0: 10,
            y0: 10,
            x1: 10,
            y1: 10,
        },
    ],
    trial: Trial {
        name: "edges",
        weights: &[1; 5],
        guesses: &[1, 2, 3, 5],
    },
};

const SIXTEEN: Case<BoxRange> = Case {
    points: &[
        BoxPoint { x: 71, y: 21 },
        BoxPoint { x: 74, y: 24 },
        BoxPoint { x: 68, y: 12 },
        BoxPoint { x: 16, y: 9 },
        BoxPoint { x: 78, y: 9 },
        BoxPoint { x: 11, y: 15 },
        BoxPoint { x: 16, y: 64 },
        BoxPoint { x: 22, y: 15 },
        BoxPoint { x: 72, y: 37 },
        BoxPoint { x: 91, y: 70 },
        BoxPoint { x: 88, y: 21 },
        BoxPoint { x: 38, y: 42 },
        BoxPoint { x: 9, y: 9 },
        BoxPoint { x: 72, y: 21 },
        BoxPoint { x: 44, y: 44 },
        BoxPoint { x: 18, y: 32 },
    ],
    ranges: &[
        BoxRange {
            x0: 18,
            y0: 20,
            x1: 29,
            y1: 38,
        },
        BoxRange {
            x0: 3,
            y0: 53,
            x1: 29,
            y1: 78,
        },
        BoxRange {
            x0: 74,
            y0: 17,
            x1: 83,
            y1: 32,
        },
        BoxRange {
            x0: 33,
            y0: 37,
            x1: 41,
            y1: 50,
        },
        BoxRange {
            x0: 63,
            y0: 3,
            x1: 70,
            y1: 22,
        },
        BoxRange {
            x0: 43,
            y0: 38,
            x1: 54,
            y1: 59,
        },
        BoxRange {
            x0: 80,
            y0: 61,
            x1: 92,
            y1: 83,
        },
        BoxRange {
            x0: 61,
            y0: 32,
            x1: 78,
            y1: 52,
        },
        BoxRange {
            x0: 63,
            y0: 7,
            x1: 93,
            y1: 15,
        },
        BoxRange {
            x0: 12,
            y0: 2,
            x1: 18,
            y1: 24,
        },
        BoxRange {
            x0: 62,
            y0: 7,
            x1: 86,
            y1: 35,
        },
        BoxRange {
            x0: 1,
            y0: 8,
            x1: 16,
            y1: 19,
        },
    ],
    trial: Trial {
        name: "sixteen points",
        weights: &[1; 16],
        guesses: &[1, 2, 3, 16],
    },
};

const NO_RANGES: Case<BoxRange> = Case {
    points: &[BoxPoint { x: 1, y: 1 }, BoxPoint { x: 2, y: 2 }],
    ranges: &[],
    trial: Trial {
        name: "no ranges",
        weights: &[1; 2],
        guesses: &[1, 2],
    },
};

// The last box holds no point, so it is never heavy and always missed.
const BARE: Case<BoxRange> = Case {
    points: &[BoxPoint { x: 1, y: 1 }],
    ranges: &[
        BoxRange {
            x0: 0,
            y0: 0,
            x1: 2,
            y1: 2,
        },
        BoxRange {
            x0: 5,
            y0: 5,
            x1: 6,
            y1: 6,
        },
    ],
    trial: Trial {
        name: "a bare range",
        weights: &[1],
        guesses: &[1],
    },
};

static CASES: [Case<BoxRange>; 5] = [TIES, EDGES, SIXTEEN, NO_RANGES, BARE];

pub fn show_boxes(rt: &HostRuntime) -> anyhow::Result<()> {
    for case in &CASES {
        let space = Boxes::new(case.points, case.ranges);
        try_guesses(rt, "greedy", &Greedy, &space, case.trial)?;
    }
    Ok(())
}
