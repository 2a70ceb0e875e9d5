// Ledgers of doubled ranges: doubling, and the replay that checks a ledger as a certificate.
#![tactic(auto)]

pub mod doubling;
pub mod replay;
