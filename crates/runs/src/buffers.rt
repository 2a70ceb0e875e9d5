ghost use Rattle.std.specs.Prelude.{◌≡◌, length};

use ranges::number::RangeNumber;

// The caller's buffers, which the calls of a run take together.
#[derive(Drop)]
pub struct Buffers<'a> {
    pub weights: &'a mut [u64],
    pub marks: &'a mut [u8],
    pub ledger: &'a mut [RangeNumber],
    pub scratch: &'a mut [u8],
}

// How long each buffer is.
#[derive(Clone, Copy, Debug, PartialEq, Eq)]
pub struct Lengths {
    pub weights: usize,
    pub marks: usize,
    pub ledger: usize,
    pub scratch: usize,
}

impl Buffers<'_> {
    pub fn lengths(&self) -> Lengths
        ensures weights { result.weights ≡ length self.now.weights.now }
        ensures marks { result.marks ≡ length self.now.marks.now }
        ensures ledger { result.ledger ≡ length self.now.ledger.now }
        ensures scratch { result.scratch ≡ length self.now.scratch.now }
    {
        Lengths {
            weights: self.weights.len(),
            marks: self.marks.len(),
            ledger: self.ledger.len(),
            scratch: self.scratch.len(),
        }
    }
}
