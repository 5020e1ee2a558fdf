//! What follows from the law of a client, for its whole history; no code.
#![tactic(auto)]

mod laws;

pub use laws::{
    client_exchanges_law, client_follows_law, client_law, client_rests_law, client_values_law,
    client_watches_law, client_witness,
};
