// A run with the caller's buffers, of which each call gets as much as it names.
use crate::desk::{BARE, Desk, POINTS, STRIPS};
use greedy::greedy::Greedy;
use nets::verifier::Lowest;
use ranges::number::RangeNumber;
use ranges::refusal::Refusal;
use runs::buffers::Buffers;
use runs::run::Run;
use shapes::strips::Strips;

#[derive(Drop)]
pub struct Session {
    pub run: Run,
    desk: Desk,
}

// How much of each buffer a round gets; the weights are always whole.
#[derive(Clone, Copy)]
pub struct Lent {
    pub marks: usize,
    pub ledger: usize,
    pub scratch: usize,
}

// As much as guess 1 takes.
pub const ENOUGH: Lent = Lent {
    marks: 3,
    ledger: 7,
    scratch: 2,
};

impl Session {
    pub fn new() -> Session {
        Session {
            run: Run::new(),
            desk: Desk::new(),
        }
    }

    pub fn begin(&mut self) -> Result<(), Refusal> {
        self.run.begin(&Strips::new(&POINTS, &STRIPS))
    }

    // On a space with a range that holds no point.
    pub fn begin_bare(&mut self) -> Result<(), Refusal> {
        self.run.begin(&Strips::new(&POINTS, &BARE))
    }

    pub fn open(&mut self, k: u16, weights: usize, ledger: usize) -> Result<(), Refusal> {
        let space = Strips::new(&POINTS, &STRIPS);
        let lines: &[RangeNumber] = &self.desk.ledger;
        let room: &mut [u64] = &mut self.desk.weights;
        self.run.open(
            &space,
            k,
            &mut room[0..weights.min(3)],
            &lines[0..ledger.min(7)],
        )
    }

    // On a space with a point less.
    pub fn open_other(&mut self, k: u16) -> Result<(), Refusal> {
        let other = Strips::new(&POINTS[0..2], &STRIPS);
        self.run
            .open(&other, k, &mut self.desk.weights, &self.desk.ledger)
    }

    pub fn round(&mut self, lent: Lent) -> Result<(), Refusal> {
        self.round_on(&Strips::new(&POINTS, &STRIPS), lent)
    }

    pub fn round_other(&mut self) -> Result<(), Refusal> {
        self.round_on(&Strips::new(&POINTS[0..2], &STRIPS), ENOUGH)
    }

    // A round on weights that someone changed, which then are as before.
    pub fn spoiled_round(&mut self) -> Result<(), Refusal> {
        let kept = self.desk.weights[0];
        self.desk.weights[0] = kept.wrapping_add(1);
        let played = self.round(ENOUGH);
        self.desk.weights[0] = kept;
        played
    }

    // Every round takes greedy and the lowest verifier.
    fn round_on(&mut self, space: &Strips<'_>, lent: Lent) -> Result<(), Refusal> {
        let net: &mut [u8] = &mut self.desk.marks;
        let lines: &mut [RangeNumber] = &mut self.desk.ledger;
        let bytes: &mut [u8] = &mut self.desk.scratch;
        let mut buffers = Buffers {
            weights: &mut self.desk.weights,
            marks: &mut net[0..lent.marks.min(3)],
            ledger: &mut lines[0..lent.ledger.min(7)],
            scratch: &mut bytes[0..lent.scratch.min(2)],
        };
        self.run.round(space, &Greedy, &Lowest, &mut buffers)
    }
}
