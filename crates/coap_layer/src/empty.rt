//! Empty acknowledgements and Resets (RFC 7252, section 4.1).
ghost use Rattle.std.specs.Prelude.{◌≡◌};
ghost use Rattle.coap_layer.specs.EmptyMessages.{ack_bytes, reset_bytes};

use coap_types::{Code, Id};

// The first byte of an Empty acknowledgement: version 1, type 2, no token (RFC 7252, section 3).
const ACK: u8 = 0x60;
// The first byte of a Reset: version 1, type 3, no token (RFC 7252, section 3).
const RESET: u8 = 0x70;

/// The Empty acknowledgement of the message of this Message ID (RFC 7252, section 4.2).
pub fn ack(id: Id) -> [u8; 4]
    // The bytes are the Empty acknowledgement of that Message ID (RFC 7252, section 4.2).
    ensures { result ≡ ack_bytes id.0 }
{
    let [high, low] = id.0.to_be_bytes();
    [ACK, Code::EMPTY.0, high, low]
}

/// The Reset that rejects the message of this Message ID (RFC 7252, section 4.2).
pub fn reset(id: Id) -> [u8; 4]
    // The bytes are the Reset of that Message ID (RFC 7252, section 4.2).
    ensures { result ≡ reset_bytes id.0 }
{
    let [high, low] = id.0.to_be_bytes();
    [RESET, Code::EMPTY.0, high, low]
}
