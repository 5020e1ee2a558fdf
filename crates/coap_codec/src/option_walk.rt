//! How options are read, from left to right (RFC 7252, section 3.1).
ghost use Rattle.std.specs.Prelude.{◌≡◌, ◌≤◌, ◌<◌, length};
ghost use Rattle.coap_types.specs.CoapOption.{option_of};
ghost use Rattle.coap_codec.specs.Reading.{Gives, value_at, nibbles_at, option_at, walk};

use crate::fault::Reason;
use crate::nibble::{DELTA_UNIT, RESERVED, extended};
use coap_types::Opt;

// The greatest option number (RFC 7252, section 12.2).
const MAX_OPTION_NUMBER: usize = 65_535;

// The option of this number, whose value is in front of the bytes.
#[tactic(auto, unfolding(crate::specs::Reading::value_at))]
fn value_at(number: usize, len: usize, bytes: &[u8]) -> Result<(Opt<'_>, &[u8]), Reason>
    ensures { Gives (λ x. (option_of x.0, x.1.now)) result (value_at number len bytes.now) }
{
    if number > MAX_OPTION_NUMBER {
        return Err(Reason::NumberTooLarge);
    }
    if bytes.len() < len {
        return Err(Reason::OptionCut);
    }
    let (value, rest) = bytes.split_at(len);
    let number = number as u16;
    Ok((Opt { number, value }, rest))
}

// The option of these nibbles, behind one of number `base`.
#[tactic(auto, unfolding(crate::specs::Reading::nibbles_at))]
fn nibbles_at(base: u16, delta: u8, len: u8, bytes: &[u8]) -> Result<(Opt<'_>, &[u8]), Reason>
    requires delta { delta < 15 }
    requires len { len < 15 }
    ensures { Gives (λ x. (option_of x.0, x.1.now)) result (nibbles_at base delta len bytes.now) }
{
    let (delta, bytes) = extended(delta, bytes)?;
    let (len, bytes) = extended(len, bytes)?;
    value_at(base as usize + delta, len, bytes)
}

/// The option in front of the bytes, behind one of number `base`, and what is behind it.
#[tactic(auto, unfolding(crate::specs::Reading::option_at))]
#[inline(always)]
pub(crate) fn option_at(base: u16, bytes: &[u8]) -> Result<(Opt<'_>, &[u8]), Reason>
    ensures { Gives (λ x. (option_of x.0, x.1.now)) result (option_at base bytes.now) }
{
    match bytes {
        [] => Err(Reason::OptionCut),
        [first, rest @ ..] => {
            let delta = *first / DELTA_UNIT;
            let len = *first % DELTA_UNIT;
            if delta == RESERVED {
                Err(Reason::DeltaReserved)
            } else if len == RESERVED {
                Err(Reason::LengthReserved)
            } else {
                nibbles_at(base, delta, len, rest)
            }
        }
    }
}

/// What is behind the whole options, and why no further one begins there.
pub(crate) fn behind_options(bytes: &[u8]) -> (&[u8], Reason)
    ensures short { length result.0.now ≤ length bytes.now }
    ensures rest { result.0.now ≡ (walk 0 bytes.now).rest }
    ensures reason { result.1 ≡ (walk 0 bytes.now).reason }
{
    let mut number = 0;
    let mut rest = bytes;
    loop {
        match option_at(number, rest) {
            Ok((option, after)) => {
                number = option.number;
                rest = after;
            }
            Err(reason) => return (rest, reason),
        }
    }
}
