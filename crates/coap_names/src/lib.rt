//! Names for peers. An end compares endpoints and reads nothing in them. So an `Endpoint` can be an opaque name of
//! anything that sends datagrams: an IPv6 address with its scope, a DTLS session, a radio. [`Names`] gives such names
//! to keys of the caller's, and finds the key of a name again.
//!
//! No two keys share a name, and no name is used again. A key keeps its name for 247 s (EXCHANGE_LIFETIME, RFC 7252,
//! section 4.8.2) after the last datagram from it or to it, and as long as the name is held. [`names_law`] says so of
//! every history of calls.
#![tactic(auto)]

mod laws;
mod names;
mod numbering;
mod places;
mod tables;

pub use laws::{name_law, names_law};
pub use names::{Idle, Names, NamesRefusal};
pub use numbering::{NAMES, NAMES_OF_THIS_NETWORK, Numbering};
pub use places::{MAX_PLACES, Places};
