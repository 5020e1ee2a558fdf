//! What programs do, each with a loop of its own, as a run whose calls are made in any order; no code.
#![tactic(auto)]

mod laws;

pub use laws::{loop_law, programs_law};
