// Runs every refusal at its limit and one beyond, and prints the number that each call answers.
#![tactic(auto)]

mod finding;
mod lists;

fn main(rt: HostRuntime) -> anyhow::Result<()> {
    run(&rt)
}

fn run(rt: &HostRuntime) -> anyhow::Result<()> {
    lists::list_checks(rt)?;
    lists::refused_spaces(rt)?;
    finding::finder_calls(rt)?;
    finding::verifier_calls(rt)
}
