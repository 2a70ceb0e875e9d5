// The job of three points on a web, and the caller's buffers for it.
use ranges::number::RangeNumber;
use shapes::strip_range::{StripPoint, StripRange};

pub static POINTS: [StripPoint; 3] = [
    StripPoint { x: 0 },
    StripPoint { x: 5 },
    StripPoint { x: 9 },
];

pub static STRIPS: [StripRange; 2] = [StripRange { a: 0, b: 5 }, StripRange { a: 6, b: 9 }];

// A range that holds no point.
pub static BARE: [StripRange; 2] = [StripRange { a: 0, b: 5 }, StripRange { a: 6, b: 8 }];

#[derive(Drop)]
pub struct Desk {
    pub weights: [u64; 3],
    pub marks: [u8; 3],
    pub ledger: [RangeNumber; 7],
    pub scratch: [u8; 2],
}

impl Desk {
    pub fn new() -> Desk {
        Desk {
            weights: [7; 3],
            marks: [7; 3],
            ledger: [RangeNumber(9); 7],
            scratch: [9; 2],
        }
    }
}
