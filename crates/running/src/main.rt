// Runs every refusal of a run and of replay, and prints the number that each call answers.
#![tactic(auto)]

mod desk;
mod session;
mod steps;

use crate::session::Session;
use crate::steps::{all_steps, say};
use ledgers::replay::{ReplayError, replay};
use ranges::number::RangeNumber;
use shapes::strips::Strips;

fn main(rt: HostRuntime) -> anyhow::Result<()> {
    run(&rt)
}

fn run(rt: &HostRuntime) -> anyhow::Result<()> {
    all_steps(rt, &mut Session::new())?;
    many_opens(rt)?;
    replays(rt)
}

// The book takes 24 guesses, and not one more.
fn many_opens(rt: &HostRuntime) -> anyhow::Result<()> {
    let mut session = Session::new();
    let mut last = session.begin();
    for _ in 0..24 {
        last = session.open(1, 3, 7);
        let _ = session.run.give_up();
    }
    say(rt, "open 24", last)?;
    say(rt, "open 25", session.open(1, 3, 7))
}

// Replay by lengths, guess and lines; the ledger of guess 1 has 7 lines here.
fn replays(rt: &HostRuntime) -> anyhow::Result<()> {
    say_replay(
        rt,
        "good ledger",
        1,
        [1, 0, 1, 0, 1, 0, 1].map(RangeNumber),
        3,
    )?;
    say_replay(
        rt,
        "heavy line",
        1,
        [0, 1, 0, 1, 0, 1, 0].map(RangeNumber),
        3,
    )?;
    say_replay(
        rt,
        "no such range",
        1,
        [1, 0, 2, 0, 1, 0, 1].map(RangeNumber),
        3,
    )?;
    say_replay(rt, "six lines", 1, [1, 0, 1, 0, 1, 0].map(RangeNumber), 3)?;
    say_replay(
        rt,
        "eight lines",
        1,
        [1, 0, 1, 0, 1, 0, 1, 0].map(RangeNumber),
        3,
    )?;
    say_replay(rt, "guess 0", 0, [], 3)?;
    say_replay(rt, "guess 4", 4, [], 3)?;
    say_replay(rt, "short weights, guess 0", 0, [], 2)
}

fn say_replay<const N: usize>(
    rt: &HostRuntime,
    what: &str,
    k: u16,
    ledger: [RangeNumber; N],
    weights: usize,
) -> anyhow::Result<()> {
    let space = Strips::new(&desk::POINTS, &desk::STRIPS);
    let mut room = [5u64; 3];
    match replay(&space, k, &ledger, &mut room[0..weights.min(3)]) {
        Ok(()) => println!(rt; "replay, {what}: accepted")?,
        Err(ReplayError::BadLine(i)) => {
            println!(rt; "replay, {what}: line {i}, weights {room:?}")?;
        }
        Err(ReplayError::Refused(e)) => {
            println!(rt; "replay, {what}: {}, weights {room:?}", e.number())?;
        }
    }
    Ok(())
}
