//! To each of many clients an answer comes through loss, by one clock of all; no code.
#![tactic(auto)]

mod laws;

pub use laws::fair_many_law;
