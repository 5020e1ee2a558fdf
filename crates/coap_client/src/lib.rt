//! The client of CoAP (RFC 7252, section 5), and the law that it keeps.
#![tactic(auto)]

mod client;
mod limits;
mod refusals;

pub use client::{CallId, Client, ClientLoad, Fetched, Report, SentRequest};
pub use limits::{MAX_OBSERVATIONS, MAX_OPTIONS_LEN, MAX_WAITING_CALLS};
pub use refusals::{CallRefusal, CancelRefusal};
