//! Escapes in the text of a segment, read.
ghost use Rattle.std.specs.Prelude.{◌≡◌, ◌≤◌, ◌<◌, length, take, true, IfSome, IfNone, Some, None};
ghost use Rattle.coap_paths.specs.Escapes.{hex_of, is_escaped, unescaped};
ghost use Rattle.coap_paths.specs.FirstBytes.{next_of};

use coap_types::MAX_SEGMENT_LEN;

/// What begins an escape (RFC 3986, section 2.1).
const PERCENT: u8 = b'%';

// The number of a hexadecimal digit.
fn hex(digit: u8) -> Option<u8>
    ensures number { result ≡ hex_of digit }
    ensures small { IfSome result (λ n. n ≤ 15) }
{
    match digit {
        b'0'..=b'9' => Some(digit - b'0'),
        b'A'..=b'F' => Some(digit - b'A' + 10),
        b'a'..=b'f' => Some(digit - b'a' + 10),
        _ => None,
    }
}

// The first byte that a text says, and the text after it.
fn next(text: &[u8]) -> Option<(u8, &[u8])>
    ensures some { IfSome result (λ r. next_of text.now ≡ Some (r.0, r.1.now)) }
    ensures none { IfNone result (next_of text.now ≡ None) }
{
    let (first, after) = text.split_first()?;
    if *first != PERCENT {
        return Some((*first, after));
    }
    let (high, after) = after.split_first()?;
    let (low, after) = after.split_first()?;
    let high = hex(*high)?;
    let low = hex(*low)?;
    Some((high * 16 + low, after))
}

/// Writes the bytes that the text of a segment says to the front of the room: how many they are. None where no two
/// digits follow a percent sign, or where they are over 255.
pub(crate) fn unescape(text: &[u8], room: &mut [u8; MAX_SEGMENT_LEN]) -> Option<usize>
    ensures some { IfSome result (λ n. (is_escaped text.now ≡ true) × (n ≡ length (unescaped text.now))
        × (n ≤ MAX_SEGMENT_LEN) × (take n room.new ≡ unescaped text.now)) }
    ensures none { IfNone result (is_escaped text.now ≡ true → MAX_SEGMENT_LEN < length (unescaped text.now)) }
{
    let mut left = text;
    let mut len = 0usize;
    'bytes: while let Some((byte, after)) = next(left) {
        if len >= MAX_SEGMENT_LEN {
            return None;
        }
        room[len] = byte;
        len += 1;
        left = after;
    }
    if left.is_empty() { Some(len) } else { None }
}

/// Whether two hexadecimal digits follow each percent sign of a text.
pub(crate) fn is_escaped(text: &[u8]) -> bool
    ensures { result ≡ is_escaped text.now }
{
    let mut left = text;
    'bytes: while let Some((_, after)) = next(left) {
        left = after;
    }
    left.is_empty()
}
