// A job placed with each finder and verifier that it can have.
use anyhow::anyhow;
use greedy::greedy::Greedy;
use nets::finder::Finder;
use nets::lightest::Lightest;
use nets::sweep::Sweep;
use nets::verifier::{Lowest, Verifier};
use placing::place::place;
use ranges::number::RangeNumber;
use ranges::space::{OrderedSpace, Space};
use runs::buffers::Buffers;

pub fn show_boxes<S: Space>(rt: &HostRuntime, job: &str, s: &S) -> anyhow::Result<()> {
    show_job(rt, job, "greedy and lowest", s, &Greedy, &Lowest)?;
    show_job(rt, job, "greedy and lightest", s, &Greedy, &Lightest)
}

pub fn show_strips<S: OrderedSpace>(rt: &HostRuntime, job: &str, s: &S) -> anyhow::Result<()> {
    show_boxes(rt, job, s)?;
    show_job(rt, job, "sweep and lowest", s, &Sweep, &Lowest)?;
    show_job(rt, job, "sweep and lightest", s, &Sweep, &Lightest)
}

// Buffers for at most 16 points; of each as much as the job takes.
fn show_job<S: Space, F: Finder<S>, V: Verifier<S>>(
    rt: &HostRuntime,
    job: &str,
    by: &str,
    s: &S,
    f: &F,
    v: &V,
) -> anyhow::Result<()> {
    let n = s.points() as usize;
    if n > 16 {
        return Err(anyhow!("the job has too many points"));
    }
    print!(rt; "{job}, {by}: ")?;
    let mut buffers = Buffers {
        weights: &mut [7; 16][0..n],
        marks: &mut [7; 16][0..n],
        ledger: &mut [RangeNumber(9); 48],
        scratch: &mut [9; 16],
    };
    let mut sheet = [9u8; 704];
    let (points, floor, rounds, len) = place(s, f, v, &mut buffers, &mut sheet)?;
    println!(rt; "points {points}, floor {floor}, rounds {rounds}, length {len}")?;
    show_bytes(rt, &sheet, len)?;
    show_weights(rt, buffers.weights)
}

fn show_bytes(rt: &HostRuntime, sheet: &[u8], len: usize) -> anyhow::Result<()> {
    print!(rt; "sheet")?;
    for byte in sheet.iter().take(len) {
        print!(rt; " {byte:02x}")?;
    }
    println!(rt; "")?;
    Ok(())
}

fn show_weights(rt: &HostRuntime, weights: &[u64]) -> anyhow::Result<()> {
    print!(rt; "weights")?;
    for w in weights {
        print!(rt; " {w}")?;
    }
    println!(rt; "")?;
    Ok(())
}
