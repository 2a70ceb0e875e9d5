// The web job carried through a run: guess 1 ruled out, its ledger replayed, guess 2 hit.
use crate::show::{show_line, show_marks};
use anyhow::Context;
use ledgers::replay::{ReplayError, replay};
use nets::sweep::Sweep;
use nets::verifier::Lowest;
use ranges::number::RangeNumber;
use runs::buffers::Buffers;
use runs::call::Call;
use runs::run::Run;
use shapes::strips::Strips;

// Begins a run and plays guesses 1 and 2 to their verdicts.
pub fn play_job(
    rt: &HostRuntime,
    space: &Strips<'_>,
    run: &mut Run,
    buffers: &mut Buffers<'_>,
) -> anyhow::Result<()> {
    run.begin(space)?;
    play_guess(rt, space, run, 1, buffers)?;
    let ledger = &*buffers.ledger;
    let lines = ledger.get(..9).context("the ledger is too short")?;
    show_ledger(rt, lines)?;
    replay_ledger(rt, space, lines)?;
    play_guess(rt, space, run, 2, buffers)?;
    show_marks(rt, buffers.marks)?;
    show_book(rt, run)
}

// Rounds until one is refused, since the guess is closed then.
fn play_guess(
    rt: &HostRuntime,
    space: &Strips<'_>,
    run: &mut Run,
    k: u16,
    buffers: &mut Buffers<'_>,
) -> anyhow::Result<()> {
    let weights = &mut *buffers.weights;
    let ledger = &mut *buffers.ledger;
    run.open(space, k, weights, ledger)?;
    let mut rounds: u16 = 0;
    for _ in 0..12 {
        if run.round(space, &Sweep, &Lowest, buffers).is_err() {
            break;
        }
        rounds = rounds.saturating_add(1);
    }
    println!(rt; "guess {k}: {rounds} rounds")?;
    Ok(())
}

fn show_ledger(rt: &HostRuntime, lines: &[RangeNumber]) -> anyhow::Result<()> {
    print!(rt; "ledger")?;
    for j in lines {
        print!(rt; " {j}")?;
    }
    println!(rt; "")?;
    Ok(())
}

fn replay_ledger(
    rt: &HostRuntime,
    space: &Strips<'_>,
    ledger: &[RangeNumber],
) -> anyhow::Result<()> {
    let mut weights = [0u64; 4];
    match replay(space, 1, ledger, &mut weights) {
        Ok(()) => println!(rt; "replay: accepted, weights {weights:?}")?,
        Err(ReplayError::BadLine(i)) => println!(rt; "replay: line {i} is not good")?,
        Err(refused) => return Err(refused.into()),
    }
    Ok(())
}

// Floor and book, as the run tells them.
pub fn show_book(rt: &HostRuntime, run: &Run) -> anyhow::Result<()> {
    println!(rt; "floor {}", run.floor())?;
    for (i, line) in (0..24).filter_map(|i| run.line(i)).enumerate() {
        show_line(rt, i, line)?;
    }
    Ok(())
}

// A list of calls, some of them refused, through the call that carries the laws.
pub fn perform_list(rt: &HostRuntime, space: &Strips<'_>) -> anyhow::Result<()> {
    let calls: [Call<'_, Sweep, Lowest>; 12] = [
        Call::GiveUp,
        Call::Begin,
        Call::Begin,
        Call::Open(1),
        Call::Open(2),
        Call::Round(&Sweep, &Lowest),
        Call::Round(&Sweep, &Lowest),
        Call::Round(&Sweep, &Lowest),
        Call::GiveUp,
        Call::Open(2),
        Call::Round(&Sweep, &Lowest),
        Call::Round(&Sweep, &Lowest),
    ];
    let mut run = Run::new();
    let mut buffers = Buffers {
        weights: &mut [7; 4],
        marks: &mut [7; 4],
        ledger: &mut [RangeNumber(9); 12],
        scratch: &mut [],
    };
    let accepted = run.perform_all(space, &calls, &mut buffers);
    println!(rt; "12 calls, {accepted} accepted")?;
    show_book(rt, &run)
}
