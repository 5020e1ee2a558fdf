//! CoAP messages as datagrams (RFC 7252, section 3).
//!
//! [`decode`] answers the message that a datagram spells, lent from the datagram, or the datagram's
//! first [`Fault`]. [`encode`] writes the one spelling of a message into a slice, or says why there
//! is none, and [`options_len`] counts the bytes of options without writing them. Nothing here
//! allocates.
#![tactic(auto)]

mod decoder;
mod encoder;
mod fault;
mod head;
mod laws;
mod nibble;
mod option_list;
mod option_put;
mod option_walk;
mod payload;
mod put;
mod view;

pub use decoder::decode;
pub use encoder::{Refusal, encode};
pub use fault::{Fault, Reason};
pub use head::Head;
pub use laws::{bounded_spelling, one_reading, one_spelling, spelling_law};
pub use option_list::options_len;
pub use view::{Options, View};
