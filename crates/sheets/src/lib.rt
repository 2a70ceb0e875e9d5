// Sheets: the ledgers, the book and the chosen points of a placement, as bytes in a lent buffer.
#![tactic(auto)]

mod bytes;
mod line;
mod parts;
pub mod reader;
mod sheet;
pub mod single;
mod trailer;
pub mod writer;
