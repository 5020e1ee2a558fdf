//! How much a message layer has at a moment.

/// How much a message layer has at a moment, and how many Message IDs it has left.
#[derive(Clone, Copy, Debug, PartialEq, Eq)]
pub struct LayerLoad {
    /// How many messages are remembered (RFC 7252, section 4.5).
    pub remembered: usize,
    /// How many messages can be remembered at most.
    pub remembered_most: usize,
    /// How many Confirmable messages are outstanding (RFC 7252, section 4.7).
    pub outstanding: usize,
    /// How many datagrams wait to be taken.
    pub queued: usize,
    /// How many Message IDs can be given one after the other at this moment (RFC 7252, section 4.4).
    pub ids_left: u32,
}
