//! A client and a server of CoAP together (RFC 7252): the whole promise, and a run whose record keeps it.
#![tactic(auto)]

mod laws;
mod running;

pub use coap_promise::{
    answers_law, any_time_law, applied_law, changes_law, clocks_law, clocks_witness_law,
    delivery_law, fresh_law, held_law, hops_law, legal_law, no_fault_law, observations_law,
    reports_law, requests_law, rising_law, runs_law, witness_law,
};
pub use coap_run::{
    Addresses, AppliedRequest, CLIENT_END, Change, Event, Given, Kind, Line, Record, RunRefusal,
    SERVER_END, Side, What, WorldConfig,
};
pub use coap_smooth::{
    answered_law, open_law, received_law, reported_law, sent_law, smooth_witness, watch_law,
};
pub use laws::agreement;
pub use running::{run, run_with};
