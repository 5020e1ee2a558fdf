//! What a run of a client and a server of CoAP is: where its ends stand, its events, its record, and which events are
//! legal.
#![tactic(auto)]

mod addresses;

pub use addresses::{Addresses, CLIENT_END, SERVER_END};
