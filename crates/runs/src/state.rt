use guesses::book::Book;

// The open guess: k, its doublings so far, and the total of the weights.
#[derive(Clone, Copy)]
pub struct OpenGuess {
    pub k: u16,
    pub doublings: u16,
    pub total: u64,
}

#[derive(Clone, Copy)]
pub enum Phase {
    Blank,
    Idle,
    Guessing(OpenGuess),
}

// What a run keeps, as plain values.
#[derive(Clone, Copy)]
pub struct State {
    pub phase: Phase,
    pub n: u16,
    pub m: u16,
    pub floor: u16,
    pub book: Book,
}
