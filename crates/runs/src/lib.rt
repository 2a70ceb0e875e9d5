// Runs: guesses opened, played round by round, ruled out or hit, with the laws that no list of calls breaks.
#![tactic(auto)]

pub mod buffers;
pub mod call;
pub mod perform;
mod round;
pub mod run;
pub mod state;
