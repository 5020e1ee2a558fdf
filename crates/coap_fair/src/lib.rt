//! An answer comes through loss, where of the copies of each request one gets through; no code.
#![tactic(auto)]

mod copies;
mod laws;

pub use copies::copies_law;
pub use laws::{fair_law, fair_witness};
