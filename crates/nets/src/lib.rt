// Finders, which mark a net for the heavy ranges, and verifiers, which name a range that a net misses.
#![tactic(auto)]

pub mod finder;
pub mod lightest;
pub mod sweep;
pub mod verifier;
