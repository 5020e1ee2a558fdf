//! Deltas and lengths of options, as a nibble with an extension (RFC 7252, section 3.1).
ghost use Rattle.std.specs.Prelude.{◌≡◌, ◌≤◌, ◌<◌, ◌+◌, ◌^◌, length, IfOk};
ghost use Rattle.coap_codec.specs.Reading.{Gives, extended};
ghost use Rattle.coap_codec.specs.Writing.{Puts};
ghost use Rattle.coap_codec.specs.Spelling.{nibble, more};

use crate::fault::Reason;
use crate::put::put;
use byteorder::{BigEndian, ByteOrder};

// The nibble of a number that stands in one byte more (RFC 7252, section 3.1).
const ONE_BYTE: u8 = 13;
// The nibble of a number that stands in two bytes more (RFC 7252, section 3.1).
const TWO_BYTES: u8 = 14;
/// The nibble that stands for no number (RFC 7252, section 3.1).
pub(crate) const RESERVED: u8 = 15;
/// The delta nibble counts this many times in an option's first byte; the length nibble is below it.
pub(crate) const DELTA_UNIT: u8 = 16;
// The least number that takes one byte more, which holds what the number is above it.
const ONE_BYTE_BASE: usize = 13;
// The least number that takes two bytes more, which hold what the number is above it.
const TWO_BYTE_BASE: usize = ONE_BYTE_BASE + 256;
/// The greatest number that a nibble and two bytes more say.
pub(crate) const MAX_EXTENDED: usize = TWO_BYTE_BASE + 65_535;

const _: () = prove!(MAX_EXTENDED == 65_804);

/// The number that a nibble says, and what is behind the bytes that extend it.
#[tactic(auto, unfolding(crate::specs::Reading::extended))]
pub(crate) fn extended(nibble: u8, bytes: &[u8]) -> Result<(usize, &[u8]), Reason>
    requires { nibble < 15 }
    ensures read { Gives (λ x. (x.0, x.1.now)) result (extended nibble bytes.now) }
    ensures small { IfOk result (λ x. x.0 < 2 ^ 17) }
{
    match nibble {
        ONE_BYTE => match bytes {
            [] => Err(Reason::OptionCut),
            [more, rest @ ..] => Ok((ONE_BYTE_BASE + *more as usize, rest)),
        },
        TWO_BYTES => {
            if bytes.len() < 2 {
                return Err(Reason::OptionCut);
            }
            let (more, rest) = bytes.split_at(2);
            Ok((TWO_BYTE_BASE + BigEndian::read_u16(more) as usize, rest))
        }
        _ => Ok((nibble as usize, bytes)),
    }
}

/// The nibble of a number.
pub(crate) fn nibble(number: usize) -> u8
    ensures { result ≡ nibble number }
{
    if number < ONE_BYTE_BASE {
        number as u8
    } else if number < TWO_BYTE_BASE {
        ONE_BYTE
    } else {
        TWO_BYTES
    }
}

/// How many bytes extend the nibble of a number.
pub(crate) fn more_len(number: usize) -> usize
    ensures exact { result ≡ length (more number) }
    ensures few { result ≤ 2 }
{
    if number < ONE_BYTE_BASE {
        0
    } else if number < TWO_BYTE_BASE {
        1
    } else {
        2
    }
}

/// Writes the bytes that extend the nibble of a number, and answers the place behind them.
pub(crate) fn put_more(out: &mut [u8], at: usize, number: usize) -> usize
    requires number { number ≤ 65804 }
    requires room { at + length (more number) ≤ length out.old }
    ensures written { Puts out.old at (more number) out.new }
    ensures end { result ≡ at + length (more number) }
{
    if number < ONE_BYTE_BASE {
        put(out, at, &[])
    } else if number < TWO_BYTE_BASE {
        put(out, at, &[(number - ONE_BYTE_BASE) as u8])
    } else {
        let mut two = [0; 2];
        BigEndian::write_u16(&mut two, (number - TWO_BYTE_BASE) as u16);
        put(out, at, &two)
    }
}
