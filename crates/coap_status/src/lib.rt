//! How a run of the program ends: with its exit status, or why it stops before its end.
#![tactic(auto)]

mod status;

pub use status::{Status, Stop, stop_of};
