//! The server of CoAP (RFC 7252, section 5), and the law that it keeps.
#![tactic(auto)]

mod error_code;
mod limits;
mod server;

pub use error_code::ErrorCode;
pub use limits::{CON_NOTIFICATION_MS, MAX_DELAYS, MAX_PLAIN_AGE_MS, MAX_PLAINS};
pub use server::{
    Applied, Delay, DelayRefusal, Load, PlainRefusal, Server, give_delay, give_plain,
};
