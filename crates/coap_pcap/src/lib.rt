//! Captures of datagrams, as Wireshark, tshark and tcpdump read and write them: files of the format pcap
//! (draft-ietf-opsawg-pcap).
//!
//! A capture is the [`head_bytes`] and then the [`record_bytes`] of each datagram, which is made a packet of IPv4 or
//! IPv6 and UDP. [`read`] finds the datagrams of any capture in that format, with its link types of [`Link`], and says
//! of each packet that isn't one why it isn't.
#![tactic(auto)]

mod addresses;
mod checksum;
mod fields;
mod file;
mod head;
mod headers;
mod ip;
mod laws;
mod link;
mod packets;
mod reasons;
mod records;
mod udp;
mod writing;

pub use addresses::{Addresses, SixEndpoint};
pub use fields::Order;
pub use file::{LeftOut, left_out, read};
pub use head::{Head, Unit, read_head};
pub use laws::pcap_law;
pub use link::Link;
pub use packets::{Datagram, Packet};
pub use reasons::{Fault, ReadError, Reason, Skip, WriteError};
pub use writing::{MAX_PAYLOAD_LEN, head_bytes, record_bytes};
