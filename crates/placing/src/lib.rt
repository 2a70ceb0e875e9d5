// Placing: one call from a space to points, floor, rounds and sheet.
#![tactic(auto)]

mod check;
mod guess;
pub mod place;
mod play;
