// A space, a finder and a verifier of one's own, which place takes as they are.
#![tactic(auto)]

mod highest;
mod ring;
mod touching;

use crate::highest::Highest;
use crate::ring::Ring;
use crate::touching::Touching;
use placing::place::place;
use ranges::hit::is_marked;
use ranges::number::{PointNumber, RangeNumber};
use runs::buffers::Buffers;

fn main(rt: HostRuntime) -> anyhow::Result<()> {
    run(&rt)
}

// Twelve points on a circle, three in each range: a ledger of 36 lines and a sheet of 608 bytes.
fn run(rt: &HostRuntime) -> anyhow::Result<()> {
    let ring = Ring::new(12, 2)?;
    let mut marks = [0u8; 12];
    let mut buffers = Buffers {
        weights: &mut [0; 12],
        marks: &mut marks,
        ledger: &mut [RangeNumber(0); 36],
        scratch: &mut [],
    };
    let (points, floor, rounds, len) = place(
        &ring,
        &Touching,
        &Highest,
        &mut buffers,
        &mut [0; 608],
    )?;
    println!(rt; "points {points}, floor {floor}, rounds {rounds}, sheet of {len} bytes")?;
    for (p, _) in (0..u16::MAX).map(PointNumber).zip(&marks) {
        if is_marked(&marks, p) {
            println!(rt; "at {p}")?;
        }
    }
    Ok(())
}
