//! Runs in which the server stops, and goes on from its journal, any number of times: without the calls that were lost
//! each is a run of a server that never stopped.
#![tactic(auto)]

mod laws;

pub use laws::{life_law, lives_law};
