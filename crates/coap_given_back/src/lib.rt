//! A client gives each call back, whatever the network and the server do; no code.
#![tactic(auto)]

mod laws;
mod many;

pub use laws::{given_back_law, given_back_witness, young_law};
pub use many::many_law;
