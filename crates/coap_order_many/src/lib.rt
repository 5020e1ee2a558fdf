//! Any number of clients and a server whose calls are made in any order: what holds of every run of many, whenever
//! datagrams and reports are taken; no code.
#![tactic(auto)]

mod laws;

pub use laws::{order_of_many_law, shared_history_law};
