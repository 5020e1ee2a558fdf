//! Runs of a client and a server whose calls are made in any order: what is promised does not depend on when a datagram
//! or a report is taken; no code.
#![tactic(auto)]

mod laws;

pub use laws::{ever_law, example_law, layer_law, order_law};
