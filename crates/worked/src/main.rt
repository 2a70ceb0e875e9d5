// One job from its lists to verified points, and a sheet of boxes; every value printed comes from a call.
#![tactic(auto)]

mod paper;
mod show;
mod web;

use crate::show::show_marks;
use greedy::greedy::Greedy;
use nets::finder::Finder;
use nets::lightest::Lightest;
use nets::sweep::Sweep;
use nets::verifier::{Lowest, Verifier};
use ranges::number::{PointNumber, RangeNumber};
use ranges::refusal::answer_number;
use ranges::space::Space;
use runs::buffers::Buffers;
use runs::run::Run;
use shapes::box_range::{BoxPoint, BoxRange};
use shapes::boxes::Boxes;
use shapes::lists::check_lists;
use shapes::strip_range::{StripPoint, StripRange};
use shapes::strips::Strips;

const WEB_POINTS: [StripPoint; 4] = [
    StripPoint { x: 0 },
    StripPoint { x: 10 },
    StripPoint { x: 20 },
    StripPoint { x: 30 },
];

const WEB_STRIPS: [StripRange; 2] = [StripRange { a: 0, b: 10 }, StripRange { a: 20, b: 30 }];

// Every point weighs 1.
const ONES: [u64; 4] = [1; 4];

const SHEET_POINTS: [BoxPoint; 4] = [
    BoxPoint { x: 10, y: 10 },
    BoxPoint { x: 20, y: 30 },
    BoxPoint { x: 40, y: 40 },
    BoxPoint { x: 60, y: 15 },
];

const SHEET_BOXES: [BoxRange; 3] = [
    BoxRange {
        x0: 10,
        y0: 10,
        x1: 20,
        y1: 20,
    },
    BoxRange {
        x0: 15,
        y0: 25,
        x1: 45,
        y1: 45,
    },
    BoxRange {
        x0: 50,
        y0: 0,
        x1: 70,
        y1: 15,
    },
];

fn main(rt: HostRuntime) -> anyhow::Result<()> {
    run(&rt)
}

fn run(rt: &HostRuntime) -> anyhow::Result<()> {
    web_job(rt)?;
    web_run(rt)?;
    box_sheet(rt)?;
    box_nets(rt)
}

// The strips of a web: guess 1 misses a range, guess 2 hits them all.
fn web_job(rt: &HostRuntime) -> anyhow::Result<()> {
    let checked = answer_number(&check_lists(&WEB_POINTS, &WEB_STRIPS));
    println!(rt; "strips: check {checked}")?;
    let space = Strips::new(&WEB_POINTS, &WEB_STRIPS);
    show_counts(rt, &space)?;
    for k in [1, 2] {
        let mut marks = [0u8; 4];
        let count = Sweep.find(&space, k, &ONES, &mut marks, &mut [])?;
        show_net(rt, "the sweep", k, count, &marks)?;
        show_verdict(rt, "lowest", Lowest.judge(&space, &marks, &ONES)?)?;
    }
    Ok(())
}

// The same job carried through a run, with its listing and its sheet; then a list of calls.
fn web_run(rt: &HostRuntime) -> anyhow::Result<()> {
    let space = Strips::new(&WEB_POINTS, &WEB_STRIPS);
    let mut run = Run::new();
    // the sweep needs no scratch
    let mut marks = [7u8; 4];
    let mut ledger = [RangeNumber(9); 12];
    let mut buffers = Buffers {
        weights: &mut [7; 4],
        marks: &mut marks,
        ledger: &mut ledger,
        scratch: &mut [],
    };
    web::play_job(rt, &space, &mut run, &mut buffers)?;
    let book = run.book();
    paper::show_listing(rt, &book, run.floor(), &marks)?;
    paper::show_sheet(rt, &ledger[..9], &book, &marks)?;
    paper::tear_up(rt, &ledger[..9])?;
    web::perform_list(rt, &space)
}

// Boxes: what a box holds, and what the lowest verifier says of some marks.
fn box_sheet(rt: &HostRuntime) -> anyhow::Result<()> {
    let checked = answer_number(&check_lists(&SHEET_POINTS, &SHEET_BOXES));
    println!(rt; "boxes: check {checked}")?;
    let space = Boxes::new(&SHEET_POINTS, &SHEET_BOXES);
    show_counts(rt, &space)?;
    let corner = space.holds(RangeNumber(0), PointNumber(0));
    println!(rt; "box 0 holds point 0: {corner}")?;
    for marks in [[0, 0, 1, 0], [1, 1, 0, 0], [1, 1, 0, 1]] {
        show_verdict(rt, "lowest", Lowest.judge(&space, &marks, &ONES)?)?;
    }
    Ok(())
}

// Greedy on the boxes: guess 1 leaves all of them light, guess 2 hits one, guess 4 hits them all.
fn box_nets(rt: &HostRuntime) -> anyhow::Result<()> {
    let space = Boxes::new(&SHEET_POINTS, &SHEET_BOXES);
    for k in [1, 2, 4] {
        let mut marks = [0u8; 4];
        let count = Greedy.find(&space, k, &ONES, &mut marks, &mut [0; 3])?;
        show_net(rt, "greedy", k, count, &marks)?;
        show_verdict(rt, "lowest", Lowest.judge(&space, &marks, &ONES)?)?;
        show_verdict(rt, "lightest", Lightest.judge(&space, &marks, &ONES)?)?;
    }
    Ok(())
}

fn show_counts<S: Space>(rt: &HostRuntime, space: &S) -> anyhow::Result<()> {
    println!(rt; "points {} ranges {}", space.points(), space.ranges())?;
    Ok(())
}

// The points that a finder marked for one guess.
fn show_net(
    rt: &HostRuntime,
    who: &str,
    k: u16,
    count: u16,
    marks: &[u8; 4],
) -> anyhow::Result<()> {
    println!(rt; "guess {k}: {who} marks {count}")?;
    show_marks(rt, marks)
}

fn show_verdict(rt: &HostRuntime, who: &str, missed: Option<RangeNumber>) -> anyhow::Result<()> {
    match missed {
        Some(j) => println!(rt; "{who}: range {j} is missed")?,
        None => println!(rt; "{who}: every range is hit")?,
    }
    Ok(())
}
