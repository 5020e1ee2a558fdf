//! What the packets of a capture are found to be.

use crate::addresses::Addresses;
use crate::reasons::Skip;
use coap_types::Moment;

/// A UDP datagram of a capture.
#[derive(Clone, Copy, Debug, PartialEq, Eq)]
pub struct Datagram<'a> {
    /// Where it comes from and where it goes to.
    pub addresses: Addresses,
    /// What it carries.
    pub payload: &'a [u8],
}

/// A packet of a capture.
#[derive(Clone, Copy, Debug, PartialEq, Eq)]
pub struct Packet<'a> {
    /// Its moment, in milliseconds since 1970; what is left of a millisecond is dropped.
    pub at: Moment,
    /// The datagram that it is, or why it is left out.
    pub found: Result<Datagram<'a>, Skip>,
}
