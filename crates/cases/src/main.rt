// Tables of small cases, each run through the public calls and printed on one line.
#![tactic(auto)]

mod bounds;
mod box_cases;
mod picks;
mod strip_cases;
mod try_guess;
mod verdict;

fn main(rt: HostRuntime) -> anyhow::Result<()> {
    run(&rt)
}

fn run(rt: &HostRuntime) -> anyhow::Result<()> {
    bounds::show_bounds(rt)?;
    box_cases::show_boxes(rt)?;
    strip_cases::show_strips(rt)?;
    strip_cases::show_many(rt)?;
    picks::show_picks(rt)
}
