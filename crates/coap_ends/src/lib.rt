//! The two ends of CoAP, a client and a server (RFC 7252, section 5), and what they have in common.
#![tactic(auto)]

mod client_end;
mod end;
mod server_end;

pub use coap_client::{
    CallId, CallRefusal, CancelRefusal, Client, ClientLoad, Fetched, MAX_OBSERVATIONS,
    MAX_OPTIONS_LEN, MAX_WAITING_CALLS, Report, SentRequest,
};
pub use coap_server::{
    Applied, CON_NOTIFICATION_MS, Delay, DelayRefusal, ErrorCode, Load, MAX_DELAYS,
    MAX_PLAIN_AGE_MS, MAX_PLAINS, PlainRefusal, Server, give_delay, give_plain,
};
pub use end::End;
