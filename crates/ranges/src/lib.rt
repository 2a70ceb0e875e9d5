// Points, ranges and refusals; spaces by their meaning; weights and hits.
#![tactic(auto)]

pub mod hit;
pub mod number;
pub mod refusal;
pub mod space;
pub mod weight;
