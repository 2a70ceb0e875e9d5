// The calls of one run, one after the other, each with the number that it answers.
use crate::session::{ENOUGH, Lent, Session};
use ranges::refusal::{Refusal, answer_number};

pub fn say(rt: &HostRuntime, what: &str, answer: Result<(), Refusal>) -> anyhow::Result<()> {
    println!(rt; "{what}: {}", answer_number(&answer))?;
    Ok(())
}

fn lent(marks: usize, ledger: usize, scratch: usize) -> Lent {
    Lent {
        marks,
        ledger,
        scratch,
    }
}

pub fn all_steps(rt: &HostRuntime, s: &mut Session) -> anyhow::Result<()> {
    blank_and_begun(rt, s)?;
    none_open(rt, s)?;
    one_open(rt, s)?;
    to_the_limit(rt, s)?;
    above_the_floor(rt, s)
}

fn blank_and_begun(rt: &HostRuntime, s: &mut Session) -> anyhow::Result<()> {
    say(rt, "give up, blank", s.run.give_up())?;
    say(rt, "open, blank", s.open(1, 2, 0))?;
    say(rt, "round, blank", s.round(lent(2, 0, 0)))?;
    say(rt, "begin, a bare range", s.begin_bare())?;
    say(rt, "begin", s.begin())?;
    say(rt, "begin again, a bare range", s.begin_bare())?;
    say(rt, "begin again", s.begin())
}

fn none_open(rt: &HostRuntime, s: &mut Session) -> anyhow::Result<()> {
    say(rt, "give up, none open", s.run.give_up())?;
    say(rt, "round, none open", s.round(lent(3, 0, 0)))?;
    say(rt, "round, short marks, none open", s.round(lent(2, 0, 0)))?;
    say(rt, "open, other space, guess 0", s.open_other(0))?;
    say(rt, "open, short weights, guess 0", s.open(0, 2, 7))?;
    say(rt, "open, guess 0, short ledger", s.open(0, 3, 0))?;
    say(rt, "open, guess 4", s.open(4, 3, 7))?;
    say(rt, "open, short ledger", s.open(1, 3, 6))?;
    say(rt, "open guess 1", s.open(1, 3, 7))
}

fn one_open(rt: &HostRuntime, s: &mut Session) -> anyhow::Result<()> {
    say(rt, "open, one is open, guess 0", s.open(0, 3, 7))?;
    say(rt, "open, short weights, one is open", s.open(2, 2, 7))?;
    say(rt, "round, other space", s.round_other())?;
    say(
        rt,
        "round, short marks, short ledger",
        s.round(lent(2, 6, 2)),
    )?;
    say(
        rt,
        "round, short ledger, short scratch",
        s.round(lent(3, 6, 1)),
    )?;
    say(rt, "round, short scratch", s.round(lent(3, 7, 1)))?;
    say(rt, "round, spoiled weights", s.spoiled_round())
}

// Guess 1 is ruled out by its seventh round.
fn to_the_limit(rt: &HostRuntime, s: &mut Session) -> anyhow::Result<()> {
    for i in 1..=7 {
        println!(rt; "round {i}: {}", answer_number(&s.round(ENOUGH)))?;
    }
    say(rt, "round 8, ruled out before", s.round(ENOUGH))
}

fn above_the_floor(rt: &HostRuntime, s: &mut Session) -> anyhow::Result<()> {
    say(
        rt,
        "open, not above the floor, short ledger",
        s.open(1, 3, 0),
    )?;
    say(rt, "open guess 2", s.open(2, 3, 6))?;
    say(rt, "give up", s.run.give_up())
}
