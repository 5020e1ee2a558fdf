//! A run of a client and a server of CoAP together, and the datagrams between them (RFC 7252): a list of events goes
//! in, and the record of what both ends do comes out.
#![tactic(auto)]

mod running;

pub use coap_record::{Addresses, CLIENT_END, SERVER_END};
pub use running::{
    AppliedRequest, Change, Event, Given, Kind, Line, Record, RunRefusal, Side, What, WorldConfig,
    run, run_with,
};
