//! Any number of clients, and a server that stops and goes on from its journal: without the calls that were lost each
//! run of lives is a run of many; no code.
#![tactic(auto)]

mod laws;

pub use laws::lives_of_many_law;
