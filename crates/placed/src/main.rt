// Place on jobs whose points, floors, rounds and sheets were worked out apart, and each of its refusals.
#![tactic(auto)]

mod jobs;
mod show;
mod sizes;

use crate::show::{show_boxes, show_strips};
use crate::sizes::show_refusals;
use shapes::boxes::Boxes;
use shapes::strips::Strips;

fn main(rt: HostRuntime) -> anyhow::Result<()> {
    run(&rt)
}

fn run(rt: &HostRuntime) -> anyhow::Result<()> {
    let web = Strips::new(&jobs::WEB_14_POINTS, &jobs::WEB_14_STRIPS);
    show_strips(rt, "web of 14", &web)?;
    let equal = Strips::new(
        &jobs::WEB_EQUAL_POINTS_POINTS,
        &jobs::WEB_EQUAL_POINTS_STRIPS,
    );
    show_strips(rt, "web with equal points", &equal)?;
    let boxes = Boxes::new(&jobs::BOX_16_POINTS, &jobs::BOX_16_BOXES);
    show_boxes(rt, "boxes on 16 points", &boxes)?;
    let ties = Boxes::new(&jobs::BOX_TIES_POINTS, &jobs::BOX_TIES_BOXES);
    show_boxes(rt, "boxes with ties", &ties)?;
    let edges = Boxes::new(&jobs::BOX_EDGES_POINTS, &jobs::BOX_EDGES_BOXES);
    show_boxes(rt, "boxes edge to edge", &edges)?;
    let bare = Boxes::new(&jobs::NO_RANGES_POINTS, &jobs::NO_RANGES_BOXES);
    show_boxes(rt, "no ranges", &bare)?;
    show_refusals(rt)
}
