//! Where a datagram of a capture comes from and goes to.

use coap_types::Endpoint;

/// Where a datagram over IPv6 comes from or goes to.
#[derive(Clone, Copy, Debug, PartialEq, Eq)]
pub struct SixEndpoint {
    /// The IPv6 address, most significant byte first.
    pub ip: [u8; 16],
    /// The UDP port.
    pub port: u16,
}

/// Where a datagram comes from, and where it goes to.
#[derive(Clone, Copy, Debug, PartialEq, Eq)]
pub enum Addresses {
    /// Over IPv4.
    V4 {
        /// Its source.
        from: Endpoint,
        /// Its destination.
        to: Endpoint,
    },
    /// Over IPv6.
    V6 {
        /// Its source.
        from: SixEndpoint,
        /// Its destination.
        to: SixEndpoint,
    },
}
