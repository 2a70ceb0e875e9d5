// Guesses at how few points are enough: the limit of a guess, and the book of the guesses.
#![tactic(auto)]

pub mod book;
pub mod limit;
