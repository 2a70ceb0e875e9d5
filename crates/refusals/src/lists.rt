// The checks of the two kinds of lists.
use ranges::refusal::answer_number;
use ranges::space::Space;
use shapes::box_range::{BoxPoint, BoxRange};
use shapes::boxes::Boxes;
use shapes::lists::check_lists;
use shapes::shape::Shape;
use shapes::strip_range::{StripPoint, StripRange};
use shapes::strips::Strips;

// The largest coordinate, and one beyond.
const MOST: i32 = 1000000;

const PAST: i32 = MOST + 1;

const ORIGIN: BoxPoint = BoxPoint { x: 0, y: 0 };

const CORNER: BoxPoint = BoxPoint { x: -MOST, y: MOST };

const FAR: BoxPoint = BoxPoint { x: 2000000, y: 0 };

// The box that is the origin alone.
const SPOT: BoxRange = BoxRange {
    x0: 0,
    y0: 0,
    x1: 0,
    y1: 0,
};

const X_REVERSED: BoxRange = BoxRange { x0: 1, ..SPOT };

const Y_REVERSED: BoxRange = BoxRange { y0: 1, ..SPOT };

const WHOLE_BOX: BoxRange = BoxRange {
    x0: -MOST,
    y0: -MOST,
    x1: MOST,
    y1: MOST,
};

// Lists of equal points and equal ranges.
struct Count<R: Shape> {
    what: &'static str,
    point: R::Point,
    points: usize,
    ranges: usize,
}

// Lists given point by point and range by range.
struct Case<R: Shape + 'static> {
    what: &'static str,
    points: &'static [R::Point],
    ranges: &'static [R],
}

static BOX_COUNTS: [Count<BoxRange>; 6] = [
    Count {
        what: "none",
        point: ORIGIN,
        points: 0,
        ranges: 0,
    },
    Count {
        what: "4096 points",
        point: ORIGIN,
        points: 4096,
        ranges: 1,
    },
    Count {
        what: "4097 points",
        point: ORIGIN,
        points: 4097,
        ranges: 1,
    },
    Count {
        what: "16384 boxes",
        point: ORIGIN,
        points: 1,
        ranges: 16384,
    },
    Count {
        what: "16385 boxes",
        point: ORIGIN,
        points: 1,
        ranges: 16385,
    },
    Count {
        what: "4097 points too far",
        point: FAR,
        points: 4097,
        ranges: 0,
    },
];

static BOX_LISTS: [Case<BoxRange>; 10] = [
    Case {
        what: "limits",
        points: &[CORNER],
        ranges: &[WHOLE_BOX],
    },
    Case {
        what: "x too large",
        points: &[BoxPoint { x: PAST, y: 0 }],
        ranges: &[],
    },
    Case {
        what: "y too small",
        points: &[BoxPoint { x: 0, y: -PAST }],
        ranges: &[],
    },
    Case {
        what: "x0 too small",
        points: &[CORNER],
        ranges: &[BoxRange { x0: -PAST, ..SPOT }],
    },
    Case {
        what: "y0 too small",
        points: &[CORNER],
        ranges: &[BoxRange { y0: -PAST, ..SPOT }],
    },
    Case {
        what: "x1 too large",
        points: &[CORNER],
        ranges: &[BoxRange { x1: PAST, ..SPOT }],
    },
    Case {
        what: "y1 too large",
        points: &[CORNER],
        ranges: &[BoxRange { y1: PAST, ..SPOT }],
    },
    Case {
        what: "x reversed",
        points: &[CORNER],
        ranges: &[SPOT, X_REVERSED],
    },
    Case {
        what: "y reversed",
        points: &[CORNER],
        ranges: &[Y_REVERSED],
    },
    Case {
        what: "reversed and too large",
        points: &[CORNER],
        ranges: &[X_REVERSED, BoxRange { y1: PAST, ..SPOT }],
    },
];

const ZERO: StripPoint = StripPoint { x: 0 };

const ONE: StripPoint = StripPoint { x: 1 };

const WHOLE_STRIP: StripRange = StripRange { a: -MOST, b: MOST };

const PAST_STRIP: StripRange = StripRange { a: 0, b: PAST };

const REVERSED_STRIP: StripRange = StripRange { a: 1, b: 0 };

static STRIP_COUNTS: [Count<StripRange>; 4] = [
    Count {
        what: "4096 points",
        point: ZERO,
        points: 4096,
        ranges: 1,
    },
    Count {
        what: "4097 points",
        point: ZERO,
        points: 4097,
        ranges: 1,
    },
    Count {
        what: "16384 strips",
        point: ZERO,
        points: 1,
        ranges: 16384,
    },
    Count {
        what: "16385 strips",
        point: ZERO,
        points: 1,
        ranges: 16385,
    },
];

static STRIP_LISTS: [Case<StripRange>; 7] = [
    Case {
        what: "x too large",
        points: &[StripPoint { x: PAST }],
        ranges: &[WHOLE_STRIP],
    },
    Case {
        what: "x too small",
        points: &[StripPoint { x: -PAST }],
        ranges: &[WHOLE_STRIP],
    },
    Case {
        what: "b too large",
        points: &[ZERO],
        ranges: &[PAST_STRIP],
    },
    Case {
        what: "reversed",
        points: &[ZERO],
        ranges: &[WHOLE_STRIP, REVERSED_STRIP],
    },
    Case {
        what: "equal points",
        points: &[ZERO, ZERO, ONE],
        ranges: &[WHOLE_STRIP],
    },
    Case {
        what: "descending points",
        points: &[ZERO, ONE, ZERO],
        ranges: &[WHOLE_STRIP],
    },
    Case {
        what: "reversed and too large",
        points: &[ONE, ZERO],
        ranges: &[REVERSED_STRIP, PAST_STRIP],
    },
];

pub fn list_checks(rt: &HostRuntime) -> anyhow::Result<()> {
    counts(rt, "boxes", WHOLE_BOX, &BOX_COUNTS)?;
    coordinates(rt, "boxes", &BOX_LISTS)?;
    counts(rt, "strips", WHOLE_STRIP, &STRIP_COUNTS)?;
    coordinates(rt, "strips", &STRIP_LISTS)
}

// Counts at their limits and one beyond.
fn counts<R: Shape + Copy>(
    rt: &HostRuntime,
    kind: &str,
    range: R,
    cases: &[Count<R>],
) -> anyhow::Result<()>
where
    R::Point: Copy,
{
    for case in cases {
        let points = vec![in rt.alloc(); case.point; case.points]?;
        let ranges = vec![in rt.alloc(); range; case.ranges]?;
        say_lists(rt, kind, case.what, &points, &ranges)?;
    }
    Ok(())
}

// Coordinates at their limits and one beyond, and ends reversed.
fn coordinates<R: Shape>(rt: &HostRuntime, kind: &str, cases: &[Case<R>]) -> anyhow::Result<()> {
    for case in cases {
        say_lists(rt, kind, case.what, case.points, case.ranges)?;
    }
    Ok(())
}

fn say_lists<R: Shape>(
    rt: &HostRuntime,
    kind: &str,
    what: &str,
    points: &[R::Point],
    ranges: &[R],
) -> anyhow::Result<()> {
    let number = answer_number(&check_lists(points, ranges));
    println!(rt; "{kind}, {what}: {number}")?;
    Ok(())
}

// A space made of refused lists has no points and no ranges.
pub fn refused_spaces(rt: &HostRuntime) -> anyhow::Result<()> {
    say_refused(rt, "boxes", &Boxes::new(&[ORIGIN], &[X_REVERSED]))?;
    say_refused(rt, "strips", &Strips::new(&[ZERO], &[REVERSED_STRIP]))
}

fn say_refused<S: Space>(rt: &HostRuntime, what: &str, space: &S) -> anyhow::Result<()> {
    let n = space.points();
    let m = space.ranges();
    println!(rt; "refused {what}: {n} points, {m} ranges")?;
    Ok(())
}
