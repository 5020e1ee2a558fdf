//! A ping: an Empty Confirmable message, which whoever is there answers with a Reset (RFC 7252, section 4.3).
//!
//! A [`Ping`] reads no clock and no socket: it says which bytes go out, when they go out again, and which datagram
//! answers them.
#![tactic(auto)]

mod ping;

pub use ping::{PING_PAUSE_MS, Ping, ping_law};
