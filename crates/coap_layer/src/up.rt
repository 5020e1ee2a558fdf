//! What a message layer tells the layer above it.
ghost use Rattle.std.specs.Prelude.{◌≡◌};
ghost use Rattle.coap_layer.specs.RefusalNumbers.{send_refusal_number};

use coap_codec::View;
use coap_types::{Endpoint, Id};
use thiserror::Error;

/// What becomes of a datagram that arrives (RFC 7252, sections 4.2, 4.3 and 4.5).
#[derive(Drop)]
pub enum Up<'a> {
    /// It is silently ignored.
    Dropped,
    /// It is a duplicate of a message that is remembered; the stored reply, if any, is sent again.
    Replayed,
    /// It is rejected with a Reset.
    Rejected,
    /// It is a request that was not seen before.
    Request {
        /// The request.
        message: View<'a>,
        /// It is remembered, so that no duplicate of it is handed up. False only for a
        /// Non-confirmable request for which no Message ID is free: it can't be answered, and is
        /// not to be served.
        remembered: bool,
    },
    /// It is a response: one that was not seen before, or one that an acknowledgement of an
    /// outstanding message carries.
    Response(View<'a>),
    /// It acknowledges the outstanding message of this Message ID, and carries nothing.
    Acked(Id),
    /// It rejects the outstanding message of this Message ID.
    Reset(Id),
    /// It is a Reset with this Message ID, of which nothing is outstanding: of a Non-confirmable
    /// message, or of nothing that was sent.
    Unmatched(Id),
}

/// What time brings about (RFC 7252, section 4.2).
#[derive(Clone, Copy, Debug, PartialEq, Eq)]
pub enum Tick {
    /// Nothing is due.
    Idle,
    /// The message of this Message ID is sent again.
    Copied(Id),
    /// The transmission to this endpoint, of this Message ID, has failed.
    Expired(Endpoint, Id),
}

/// Why a message is not sent. Where several hold, the first is answered, and `Memory` only where
/// none of the others does.
#[derive(Clone, Copy, Debug, PartialEq, Eq, Error)]
pub enum SendRefusal {
    /// A Confirmable message to that endpoint is outstanding (RFC 7252, section 4.7).
    #[error("a Confirmable message to that endpoint is outstanding")]
    Outstanding,
    /// No Message ID is free (RFC 7252, section 4.4).
    #[error("no Message ID is free")]
    NoIds,
    /// An allocation was refused.
    #[error("out of memory")]
    Memory,
}

impl SendRefusal {
    /// The number of the refusal, 1 to 3, in the order of the variants.
    pub fn number(self) -> u8
        // The number of a message's refusal is its place among the three.
        ensures { result ≡ send_refusal_number self }
    {
        match self {
            SendRefusal::Outstanding => 1,
            SendRefusal::NoIds => 2,
            SendRefusal::Memory => 3,
        }
    }
}
