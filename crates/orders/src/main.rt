// One call from a space to its points: the web job with the sweep, thirty orders with greedy and both verifiers.
#![tactic(auto)]

mod cases;
mod jobs;
mod show;

use crate::cases::worked_cases;
use crate::jobs::{ORDERS, SPOTS, WEB_POINTS, WEB_STRIPS};
use crate::show::show_sheet;
use greedy::greedy::Greedy;
use nets::lightest::Lightest;
use nets::sweep::Sweep;
use nets::verifier::{Lowest, Verifier};
use placing::place::place;
use ranges::number::RangeNumber;
use ranges::space::Space;
use runs::buffers::Buffers;
use shapes::boxes::Boxes;
use shapes::strips::Strips;

fn main(rt: HostRuntime) -> anyhow::Result<()> {
    run(&rt)
}

fn run(rt: &HostRuntime) -> anyhow::Result<()> {
    let proved = worked_cases();
    println!(rt; "cases settled by proof: {proved}")?;
    place_web(rt)?;
    let sheet = Boxes::new(&SPOTS, &ORDERS);
    place_orders(rt, "orders, greedy and lowest", &sheet, &Lowest)?;
    place_orders(rt, "orders, greedy and lightest", &sheet, &Lightest)
}

// Four points need a ledger of 12 lines and a sheet of 416 bytes; the sweep needs no scratch.
fn place_web(rt: &HostRuntime) -> anyhow::Result<()> {
    let space = Strips::new(&WEB_POINTS, &WEB_STRIPS);
    let mut buffers = Buffers {
        weights: &mut [7; 4],
        marks: &mut [7; 4],
        ledger: &mut [RangeNumber(9); 12],
        scratch: &mut [],
    };
    let mut sheet = [9u8; 416];
    let placed = place(&space, &Sweep, &Lowest, &mut buffers, &mut sheet)?;
    show_answer(rt, "web, sweep and lowest", placed)?;
    show_sheet(rt, &space, placed.3, &sheet, &mut buffers)
}

// Thirty orders on 24 spots: a ledger of 72 lines, 30 bytes of scratch, a sheet of 896 bytes.
fn place_orders<S: Space, V: Verifier<S>>(
    rt: &HostRuntime,
    name: &str,
    space: &S,
    v: &V,
) -> anyhow::Result<()> {
    let mut buffers = Buffers {
        weights: &mut [7; 24],
        marks: &mut [7; 24],
        ledger: &mut [RangeNumber(9); 72],
        scratch: &mut [9; 30],
    };
    let mut sheet = [9u8; 896];
    let placed = place(space, &Greedy, v, &mut buffers, &mut sheet)?;
    show_answer(rt, name, placed)?;
    show_sheet(rt, space, placed.3, &sheet, &mut buffers)
}

fn show_answer(
    rt: &HostRuntime,
    name: &str,
    (points, floor, rounds, len): (u16, u16, u32, usize),
) -> anyhow::Result<()> {
    println!(rt; "{name}: points {points}, floor {floor}, rounds {rounds}, sheet of {len} bytes")?;
    Ok(())
}
