//! The options of a message, one after the other, in one pass over its datagram (RFC 7252, section 3.1).
ghost use Rattle.std.specs.Prelude.{◌≡◌, ◌≤◌, ◌<◌, ◌⊎◌, ◌++◌, ℕ, List, length, drop, IfSome, IfNone, IfOk, OnErr};
ghost use Rattle.coap_types.specs.CoapOption.{CoapOption, option_of};
ghost use Rattle.coap_codec.specs.Extension.{Ext};
ghost use Rattle.coap_codec.specs.Message.{Message, Spells, marked};
ghost use Rattle.coap_codec.specs.Options.{IsOption};
ghost use Rattle.coap_options.specs.Standing.{HasNone, IsAstray, IsAtEnd, IsBehind, IsFirst, IsNext, SaysNone};
ghost use Rattle.coap_options.specs.Standing.{StandsAt};

use coap_codec::{View, decode};
use coap_types::Opt;

// How many bytes the header of a message has (RFC 7252, section 3).
const HEADER_LEN: usize = 4;

// How many bytes the payload marker has (RFC 7252, section 3).
const MARKER_LEN: usize = 1;

// The nibble of a number that stands in one byte more (RFC 7252, section 3.1).
const ONE_BYTE: u8 = 13;

// The nibble of a number that stands in two bytes more (RFC 7252, section 3.1).
const TWO_BYTES: u8 = 14;

// The nibble that stands for no number (RFC 7252, section 3.1).
const RESERVED: u8 = 15;

// The delta nibble counts this many times in an option's first byte.
const DELTA_UNIT: u8 = 16;

// The least number that takes one byte more.
const ONE_BYTE_BASE: usize = 13;

// The least number that takes two bytes more.
const TWO_BYTE_BASE: usize = 269;

// The greatest option number (RFC 7252, section 12.2).
const MAX_OPTION_NUMBER: usize = 65_535;

/// Where the reading of a message's options stands in its datagram.
#[derive(Clone, Copy, Debug, PartialEq, Eq)]
pub struct Cursor {
    /// Where the next option begins.
    pub at: usize,
    /// Where the options end.
    pub end: usize,
    /// The number of the option before it; 0 where there is none.
    pub number: u16,
}

/// The cursor stands before no options of this datagram.
#[derive(Clone, Copy, Debug, PartialEq, Eq)]
pub struct Astray;

// The number that a nibble says, and what follows the bytes that extend it; None where it says no number, or they are
// cut off.
fn extended(nibble: u8, bytes: &[u8]) -> Option<(usize, &[u8])>
    ensures some { IfSome result (λ x. (more : List ℕ) × Ext x.0 nibble more × (bytes.now ≡ more ++ x.1.now)) }
    ensures none { IfNone result (SaysNone nibble bytes.now) }
    ensures small { IfSome result (λ x. x.0 ≤ 65804) }
{
    match nibble {
        ONE_BYTE => match bytes {
            [] => None,
            [more, rest @ ..] => Some((ONE_BYTE_BASE + usize::from(*more), rest)),
        },
        TWO_BYTES => match bytes {
            [high, low, rest @ ..] => {
                let more = usize::from(*high) * 256 + usize::from(*low);
                Some((TWO_BYTE_BASE + more, rest))
            }
            _ => None,
        },
        _ if nibble < ONE_BYTE => Some((usize::from(nibble), bytes)),
        _ => None,
    }
}

// The option of this number, whose value is in front of the bytes, and what follows it; None where there is no such
// number, or the value is cut off.
fn valued(number: usize, len: usize, bytes: &[u8]) -> Option<(Opt<'_>, &[u8])>
    ensures some { IfSome result (λ x. (number ≤ 65535) × ((option_of x.0).number ≡ number)
        × (length (option_of x.0).value ≡ len) × (bytes.now ≡ (option_of x.0).value ++ x.1.now)) }
    ensures none { IfNone result ((MAX_OPTION_NUMBER < number) ⊎ (length bytes.now < len)) }
{
    if number > MAX_OPTION_NUMBER || bytes.len() < len {
        return None;
    }
    let (value, rest) = bytes.split_at(len);
    let number = number as u16;
    Some((Opt { number, value }, rest))
}

// The option in front of the bytes, behind one of number `last`, and what follows it; None where none begins there.
fn front(last: u16, bytes: &[u8]) -> Option<(Opt<'_>, &[u8])>
    ensures some { IfSome result (λ x. (first : List ℕ) × IsOption last (option_of x.0) first
        × (bytes.now ≡ first ++ x.1.now)) }
    ensures none { IfNone result (HasNone last bytes.now) }
{
    match bytes {
        [] => None,
        [nibbles, rest @ ..] => {
            let (delta, rest) = extended(*nibbles / DELTA_UNIT, rest)?;
            let (len, rest) = extended(*nibbles % DELTA_UNIT, rest)?;
            valued(usize::from(last) + delta, len, rest)
        }
    }
}

// How many bytes of its datagram the payload of a message takes, with its marker.
fn marked_len(message: &View<'_>) -> usize
    ensures { result ≡ length (marked message.now.payload) }
{
    match message.payload().len() {
        0 => 0,
        len => MARKER_LEN + len,
    }
}

impl Cursor {
    /// The cursor before the options of a message; None where the datagram spells none.
    pub fn begin(datagram: &[u8]) -> Option<Cursor>
        // A reading begins before all options of the message that the datagram spells, and its end is in front of the
        // payload with its marker.
        ensures some { IfSome result (λ c. (m : Message) × Spells datagram.now m × StandsAt datagram.now c m.options
            × (drop c.end datagram.now ≡ marked m.payload)) }
        // No reading begins where the datagram spells no message.
        ensures none { IfNone result ((m : Message) → Spells datagram.now m → ⊥) }
    {
        match decode(datagram) {
            Ok(message) => Some(Cursor {
                at: HEADER_LEN + message.token().len(),
                end: datagram.len() - marked_len(&message),
                number: 0,
            }),
            Err(_) => None,
        }
    }

    /// The option before which the cursor stands, which stands behind it then; None at the end of the options.
    pub fn next<'d>(&mut self, datagram: &'d [u8]) -> Result<Option<Opt<'d>>, Astray>
        // A cursor that stands before some options tells the first of them, and stands before the others then.
        ensures order { (os : List CoapOption) → StandsAt datagram.now self.old os
            → IsFirst datagram.now result self.new os }
        // What is told is the option that lies ahead, and the cursor is behind it then.
        ensures told { IfOk result (λ found. IfSome found (λ o. IsNext datagram.now self.old self.new (option_of o))) }
        // The value of what is told lies right in front of the cursor.
        ensures value { IfOk result (λ found. IfSome found (λ o. IsBehind datagram.now self.new (option_of o).value)) }
        // No option is told where none is left, and the cursor stays.
        ensures end { IfOk result (λ found. IfNone found (IsAtEnd datagram.now self.old × (self.new ≡ self.old))) }
        // A cursor that stands before no options is astray, and stays.
        ensures astray { OnErr result (IsAstray datagram.now self.old × (self.new ≡ self.old)) }
    {
        if datagram.len() < self.end || self.end < self.at {
            return Err(Astray);
        }
        if self.at == self.end {
            return Ok(None);
        }
        match front(self.number, &datagram[self.at..self.end]) {
            Some((option, rest)) => {
                self.at = self.end - rest.len();
                self.number = option.number;
                Ok(Some(option))
            }
            None => Err(Astray),
        }
    }
}
