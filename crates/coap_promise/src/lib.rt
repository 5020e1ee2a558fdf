//! What holds of every run of a client and a server of CoAP, however the datagrams between them are lost, repeated and
//! delayed (RFC 7252); no code.
#![tactic(auto)]

mod laws;
mod runs;

pub use laws::{
    answers_law, any_time_law, applied_law, changes_law, clocks_law, delivery_law, fresh_law,
    held_law, hops_law, legal_law, no_fault_law, observations_law, reports_law, requests_law,
    rising_law,
};
pub use runs::{clocks_witness_law, runs_law, witness_law};
