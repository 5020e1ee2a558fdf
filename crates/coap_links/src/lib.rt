//! What carries the datagrams of an end: links, and the turns of an end over one.
//!  A [`Link`] sends and receives datagrams and counts the calls that failed: a [`UdpLink`] over a socket
//! ([`DatagramSocket`]), a [`Udp6Link`] over one of IPv6, whose peers have names, a [`MemoryLink`] in memory, a
//! [`Trace`] around another, which tells of what passes. [`pump`] sends what an end has out and feeds it what came;
//! [`turn`] pumps an end once, and then ticks it until nothing is due. Nothing here reads a clock but by a
//! [`Timekeeper`], for names: each turn is handed its moment.
#![tactic(auto)]

mod carried;
mod datagram_socket;
mod driver;
mod lender;
mod link;
mod memory_link;
mod peer_names;
mod six_places;
mod socket;
mod tally;
mod timekeeper;
mod trace;
mod turning;
mod udp6_link;
mod udp_link;

pub use carried::Carried;
pub use datagram_socket::DatagramSocket;
pub use driver::{Pumped, pump, send_all};
pub use lender::{CellLender, Lender};
pub use link::{Link, MAX_DATAGRAM_LEN};
pub use memory_link::MemoryLink;
pub use peer_names::{PeerNames, SixPeer};
pub use tally::{Tally, fresh_tally};
pub use timekeeper::Timekeeper;
pub use trace::{Teller, Trace, Way, trace_law};
pub use turning::{get_turn, serve_turn, turn};
pub use udp_link::{ANY_PORT, EACH_ADDRESS, LOOPBACK, UdpLink};
pub use udp6_link::Udp6Link;
