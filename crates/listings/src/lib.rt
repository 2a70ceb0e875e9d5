// Listings: the guesses and the chosen points of a run as text.
#![tactic(auto)]

pub mod listing;
mod text;
