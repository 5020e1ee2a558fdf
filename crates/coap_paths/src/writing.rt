//! A path written as text.
ghost use Rattle.std.specs.Prelude.{◌≡◌, ◌≤◌, ◌<◌, ◌+◌, ◌++◌, ◌∷◌, length, take, IfSome, IfNone};
ghost use Rattle.coap_paths.specs.Escapes.{escape, escaped};
ghost use Rattle.coap_paths.specs.PathTexts.{IsText, text_of};

use coap_types::Path;
use std::alloc::Allocator;

// Writes the bytes after the first ones of the room: how many bytes are written then. None where they do not fit.
fn put_bytes(room: &mut [u8], len: usize, bytes: &[u8]) -> Option<usize>
    ensures put { IfSome result (λ end. (end ≡ length (take len room.old ++ bytes.now))
        × (take end room.new ≡ take len room.old ++ bytes.now)) }
    ensures none { IfNone result (length room.old < len + length bytes.now) }
    ensures fits { IfSome result (λ end. end ≤ length room.old) }
    ensures whole { length room.new ≡ length room.old }
{
    let left = room.len().checked_sub(len)?;
    if left < bytes.len() {
        return None;
    }
    let end = len + bytes.len();
    room[len..end].copy_from_slice(bytes);
    Some(end)
}

// Writes a byte of a segment, escaped where it is a slash or a percent sign.
fn put_byte(room: &mut [u8], len: usize, byte: u8) -> Option<usize>
    ensures put { IfSome result (λ end. (end ≡ length (take len room.old ++ escape byte))
        × (take end room.new ≡ take len room.old ++ escape byte)) }
    ensures none { IfNone result (length room.old < len + length (escape byte)) }
    ensures fits { IfSome result (λ end. end ≤ length room.old) }
    ensures whole { length room.new ≡ length room.old }
{
    if byte == b'/' {
        put_bytes(room, len, b"%2F")
    } else if byte == b'%' {
        put_bytes(room, len, b"%25")
    } else {
        put_bytes(room, len, &[byte])
    }
}

// Writes the bytes of a segment.
fn put_escaped(room: &mut [u8], len: usize, segment: &[u8]) -> Option<usize>
    requires { len ≤ length room.old }
    ensures put { IfSome result (λ end. (end ≡ length (take len room.old ++ escaped segment.now))
        × (take end room.new ≡ take len room.old ++ escaped segment.now)) }
    ensures none { IfNone result (length room.old < len + length (escaped segment.now)) }
    ensures whole { length room.new ≡ length room.old }
{
    let mut end = len;
    for byte in segment {
        end = put_byte(room, end, *byte)?;
    }
    Some(end)
}

/// Writes a segment after the first bytes of the room, with a `/` before it: how many bytes are written then. None
/// where they do not fit; then the bytes after the first ones may be any.
pub fn put_segment(room: &mut [u8], len: usize, segment: &[u8]) -> Option<usize>
    // A segment is written after a slash, its own slashes and percent signs escaped; what stood before it stays.
    ensures put { IfSome result (λ end. (end ≡ length (take len room.old ++ 47 ∷ escaped segment.now))
        × (take end room.new ≡ take len room.old ++ 47 ∷ escaped segment.now)) }
    // A segment is not written only where it does not fit.
    ensures none { IfNone result (length room.old < len + (1 + length (escaped segment.now))) }
    // To write a segment leaves the room as long as it was.
    ensures whole { length room.new ≡ length room.old }
{
    let end = put_bytes(room, len, b"/")?;
    put_escaped(room, end, segment)
}

/// Writes the path to the front of the room, with a `/` before each segment: how many bytes it has. None where they do
/// not fit; then the room may hold any bytes.
pub fn put_path<A: Allocator + Copy>(path: &Path<A>, room: &mut [u8]) -> Option<usize>
    // What is written of a path is its text.
    ensures put { IfSome result (λ len. IsText path.now room.new len) }
    // A path is not written only where its text does not fit.
    ensures none { IfNone result (length room.old < length (text_of path.now)) }
    // To write a path leaves the room as long as it was.
    ensures whole { length room.new ≡ length room.old }
{
    let mut len = 0usize;
    for segment in path.segments() {
        len = put_segment(room, len, segment)?;
    }
    Some(len)
}
