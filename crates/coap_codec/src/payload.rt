//! The payload marker and the payload (RFC 7252, section 3).
ghost use Rattle.std.specs.Prelude.{◌≡◌, ◌≤◌, ◌+◌, length};
ghost use Rattle.coap_codec.specs.Message.{marked};
ghost use Rattle.coap_codec.specs.Reading.{Gives, payload_at};
ghost use Rattle.coap_codec.specs.Writing.{Puts};

use crate::fault::Reason;
use crate::put::put;

// The byte between the options and the payload (RFC 7252, section 3).
const PAYLOAD_MARKER: u8 = 0xff;

/// The payload in what is behind the options, of which no further one begins for this reason.
#[tactic(auto, unfolding(crate::specs::Reading::payload_at))]
pub(crate) fn payload_at(reason: Reason, rest: &[u8]) -> Result<&[u8], Reason>
    ensures { Gives (λ x. x.now) result (payload_at reason rest.now) }
{
    match rest {
        [] => Ok(rest),
        [PAYLOAD_MARKER] => Err(Reason::NoPayload),
        [PAYLOAD_MARKER, payload @ ..] => Ok(payload),
        _ => Err(reason),
    }
}

/// Writes nothing, or the marker and the payload.
pub(crate) fn put_payload(out: &mut [u8], at: usize, payload: &[u8]) -> usize
    requires { at + length (marked payload.now) ≤ length out.old }
    ensures written { Puts out.old at (marked payload.now) out.new }
    ensures end { result ≡ at + length (marked payload.now) }
{
    if payload.is_empty() {
        return at;
    }
    let at = put(out, at, &[PAYLOAD_MARKER]);
    put(out, at, payload)
}
