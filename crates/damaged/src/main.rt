// Damages sheets one condition at a time, and tries the limits of the calls that write.
#![tactic(auto)]

mod adding;
mod closing;
mod job;
mod listed;
mod reading;

fn main(rt: HostRuntime) -> anyhow::Result<()> {
    run(&rt)
}

fn run(rt: &HostRuntime) -> anyhow::Result<()> {
    job::written_anew(rt)?;
    reading::damaged_sheets(rt)?;
    reading::small_sheets(rt)?;
    reading::long_books(rt)?;
    adding::adds(rt)?;
    adding::second_adds(rt)?;
    closing::closes(rt)?;
    listed::listings(rt)
}
