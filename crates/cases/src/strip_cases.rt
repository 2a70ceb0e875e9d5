// Greedy and the sweep on strips.
use crate::try_guess::{Case, Trial, try_guesses};
use greedy::greedy::Greedy;
use nets::sweep::Sweep;
use shapes::strip_range::{StripPoint, StripRange};
use shapes::strips::Strips;
use std::alloc::{AllocError, Global};

// Four points, 10 apart.
pub const TENS: [StripPoint; 4] = [
    StripPoint { x: 0 },
    StripPoint { x: 10 },
    StripPoint { x: 20 },
    StripPoint { x: 30 },
];

const FOUR: Case<StripRange> = Case {
    points: &TENS,
    ranges: &[StripRange { a: 0, b: 10 }, StripRange { a: 20, b: 30 }],
    trial: Trial {
        name: "four points",
        weights: &[1; 4],
        guesses: &[1, 2, 3, 4],
    },
};

const EQUAL: Case<StripRange> = Case {
    points: &[
        StripPoint { x: 5 },
        StripPoint { x: 5 },
        StripPoint { x: 5 },
        StripPoint { x: 9 },
        StripPoint { x: 9 },
        StripPoint { x: 20 },
    ],
    ranges: &[
        StripRange { a: 5, b: 5 },
        StripRange { a: 6, b: 9 },
        StripRange { a: 5, b: 9 },
        StripRange { a: 10, b: 20 },
        StripRange { a: 20, b: 20 },
    ],
    trial: Trial {
        name: "equal points",
        weights: &[1; 6],
        guesses: &[1, 2, 3, 6],
    },
};

const FOURTEEN: Case<StripRange> = Case {
    points: &[
        StripPoint { x: -289 },
        StripPoint { x: -276 },
        StripPoint { x: -238 },
        StripPoint { x: -151 },
        StripPoint { x: -93 },
        StripPoint { x: -80 },
        StripPoint { x: -79 },
        StripPoint { x: -61 },
        StripPoint { x: 0 },
        StripPoint { x: 7 },
        StripPoint { x: 51 },
        StripPoint { x: 52 },
        StripPoint { x: 62 },
        StripPoint { x: 176 },
    ],
    ranges: &[
        StripRange { a: -93, b: -9 },
        StripRange { a: -61, b: 24 },
        StripRange { a: 52, b: 120 },
        StripRange { a: -276, b: -202 },
        StripRange { a: 0, b: 114 },
        StripRange { a: -79, b: -10 },
        StripRange { a: 62, b: 178 },
        StripRange { a: 51, b: 68 },
        StripRange { a: 7, b: 85 },
        StripRange { a: -238, b: -208 },
    ],
    trial: Trial {
        name: "fourteen points",
        weights: &[1; 14],
        guesses: &[1, 2, 3, 14],
    },
};

// A range is heavy only above its share, so guess 2 still leaves all of them light.
const ALL_LIGHT: Case<StripRange> = Case {
    points: &TENS,
    ranges: &[
        StripRange { a: 0, b: 0 },
        StripRange { a: 10, b: 10 },
        StripRange { a: 20, b: 20 },
        StripRange { a: 30, b: 30 },
    ],
    trial: Trial {
        name: "single points",
        weights: &[1; 4],
        guesses: &[1, 2, 3],
    },
};

const NO_WEIGHT: Case<StripRange> = Case {
    points: &TENS,
    ranges: &[StripRange { a: 0, b: 10 }, StripRange { a: 20, b: 30 }],
    trial: Trial {
        name: "all weights 0",
        weights: &[0; 4],
        guesses: &[1, 4],
    },
};

const ONE_HEAVY: Case<StripRange> = Case {
    points: &TENS,
    ranges: &[StripRange { a: 0, b: 10 }, StripRange { a: 20, b: 30 }],
    trial: Trial {
        name: "one heavy point",
        weights: &[9, 1, 1, 1],
        guesses: &[1, 3, 4],
    },
};

// Greedy counts ranges and not weights: the point in both has none.
const LIGHT_POINT: Case<StripRange> = Case {
    points: &TENS,
    ranges: &[StripRange { a: 0, b: 10 }, StripRange { a: 10, b: 20 }],
    trial: Trial {
        name: "a shared point of weight 0",
        weights: &[3, 0, 3, 0],
        guesses: &[1, 2],
    },
};

const ONE_RANGE: Case<StripRange> = Case {
    points: &[
        StripPoint { x: 0 },
        StripPoint { x: 10 },
        StripPoint { x: 20 },
    ],
    ranges: &[StripRange { a: 10, b: 20 }],
    trial: Trial {
        name: "one range",
        weights: &[1; 3],
        guesses: &[1, 3],
    },
};

const ONE_POINT: Case<StripRange> = Case {
    points: &[StripPoint { x: 5 }],
    ranges: &[StripRange { a: 0, b: 9 }],
    trial: Trial {
        name: "one point",
        weights: &[1],
        guesses: &[1],
    },
};

// Strips of five points each are all heavy; greedy's bound grows with the digits of their count.
const EIGHT: [StripPoint; 8] = [
    StripPoint { x: 0 },
    StripPoint { x: 1 },
    StripPoint { x: 2 },
    StripPoint { x: 3 },
    StripPoint { x: 4 },
    StripPoint { x: 5 },
    StripPoint { x: 6 },
    StripPoint { x: 7 },
];

const LONG_ONE: Case<StripRange> = Case {
    points: &EIGHT,
    ranges: &[StripRange { a: 0, b: 4 }],
    trial: Trial {
        name: "one long strip",
        weights: &[1; 8],
        guesses: &[1],
    },
};

const LONG_TWO: Case<StripRange> = Case {
    points: &EIGHT,
    ranges: &[StripRange { a: 0, b: 4 }, StripRange { a: 1, b: 5 }],
    trial: Trial {
        name: "two long strips",
        weights: &[1; 8],
        guesses: &[1],
    },
};

const LONG_THREE: Case<StripRange> = Case {
    points: &EIGHT,
    ranges: &[
        StripRange { a: 0, b: 4 },
        StripRange { a: 1, b: 5 },
        StripRange { a: 2, b: 6 },
    ],
    trial: Trial {
        name: "three long strips",
        weights: &[1; 8],
        guesses: &[1],
    },
};

const LONG_FOUR: Case<StripRange> = Case {
    points: &EIGHT,
    ranges: &[
        StripRange { a: 0, b: 4 },
        StripRange { a: 1, b: 5 },
        StripRange { a: 2, b: 6 },
        StripRange { a: 3, b: 7 },
    ],
    trial: Trial {
        name: "four long strips",
        weights: &[1; 8],
        guesses: &[1],
    },
};

static CASES: [Case<StripRange>; 13] = [
    FOUR,
    EQUAL,
    FOURTEEN,
    ALL_LIGHT,
    NO_WEIGHT,
    ONE_HEAVY,
    LIGHT_POINT,
    ONE_RANGE,
    ONE_POINT,
    LONG_ONE,
    LONG_TWO,
    LONG_THREE,
    LONG_FOUR,
];

pub fn show_strips(rt: &HostRuntime) -> anyhow::Result<()> {
    for case in &CASES {
        let space = Strips::new(case.points, case.ranges);
        try_guesses(rt, "greedy", &Greedy, &space, case.trial)?;
        try_guesses(rt, "sweep", &Sweep, &space, case.trial)?;
    }
    Ok(())
}

static MANY: Trial<'static> = Trial {
    name: "many strips",
    weights: &[1; 4],
    guesses: &[1, 2],
};

// Gains of 200, 400, 260 and 60, past what a byte tells; the first mark leaves 60 of the 260.
pub fn show_many(rt: &HostRuntime) -> anyhow::Result<()> {
    let strips = many_strips(rt.alloc())?;
    let space = Strips::new(&TENS, &strips);
    try_guesses(rt, "greedy", &Greedy, &space, MANY)
}

fn many_strips(heap: Global) -> Result<Vec<StripRange>, AllocError> {
    let mut strips = vec![in heap; StripRange { a: 0, b: 10 }; 460]?;
    strips[200..400].fill(StripRange { a: 10, b: 20 });
    strips[400..].fill(StripRange { a: 20, b: 30 });
    Ok(strips)
}
