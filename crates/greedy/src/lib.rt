// The greedy finder, for every space.
#![tactic(auto)]

pub mod greedy;
