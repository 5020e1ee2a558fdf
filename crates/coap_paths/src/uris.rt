//! The path that a URI says (RFC 7252, section 6.4; RFC 3986, section 5.2.4).
ghost use Rattle.std.specs.Prelude.{◌≡◌, ◌≢◌, ◌<◌, ◌≤◌, ◌⊎◌, ◌++◌, ◌∷◌, [], All, Any, IfErr, IfOk, OnOk, length, map};
ghost use Rattle.std.specs.Prelude.{true};
ghost use Rattle.coap_paths.specs.Escapes.{is_escaped, unescaped};
ghost use Rattle.coap_paths.specs.PathTexts.{parts};
ghost use Rattle.coap_paths.specs.Uris.{AreEscaped, IsNamed, is_dots, is_root, keeps, named, resolved};

use crate::escapes::{is_escaped, unescape};
use coap_types::{MAX_SEGMENT_LEN, MAX_SEGMENTS, Path, PathRefusal};
use std::alloc::{AllocError, Allocator};
use thiserror::Error;

/// The segment that stands for the one that it is in (RFC 3986, section 3.3).
const SAME: &str = ".";

/// The segment that stands for the one above.
const ABOVE: &str = "..";

/// Why a URI says no path.
#[derive(Clone, Copy, Debug, PartialEq, Eq, Error)]
pub enum UriPathRefusal {
    /// No two hexadecimal digits follow a percent sign.
    #[error("a percent sign without two hexadecimal digits")]
    Percent,
    /// It has a segment of over 255 bytes.
    #[error("a segment of over 255 bytes")]
    SegmentTooLong,
    /// It has over 16 segments.
    #[error("over 16 segments")]
    TooManySegments,
    /// An allocation was refused.
    #[error("no memory")]
    Memory,
}

impl From<AllocError> for UriPathRefusal {
    ghost use Rattle.coap_paths.specs.declared.uris.UriPathRefusal.{UriPathRefusal};

    ghost from_gives = { λ _ refusal. refusal ≡ UriPathRefusal.Memory };

    fn from(_error: AllocError) -> UriPathRefusal {
        UriPathRefusal::Memory
    }
}

/// The path that the text behind a URI's authority says, less the first `/`: its segments stand between slashes. In a
/// segment `%` and two hexadecimal digits are the byte of that number; `.` and `..` go, with what they stand for. No
/// text, and dots alone, are the path without segments.
pub fn path_of_uri<A: Allocator + Copy>(alloc: A, text: &str) -> Result<Path<A>, UriPathRefusal>
    // The path is the one that the text says.
    ensures path { IfOk result (IsNamed text.now) }
    // A text is refused for its escapes only where two hexadecimal digits are missing behind a percent sign.
    ensures percent { result ≡ Err UriPathRefusal.Percent → AreEscaped text.now → ⊥ }
    // A segment is called too long only where one of the path is.
    ensures too_long { result ≡ Err UriPathRefusal.SegmentTooLong
        → Any (λ s. MAX_SEGMENT_LEN < length s) (named text.now) }
    // The segments are called too many only where they are.
    ensures too_many { result ≡ Err UriPathRefusal.TooManySegments → MAX_SEGMENTS < length (named text.now) }
{
    let kept = kept_of(alloc, text)?;
    let mut path = Path::new(alloc);
    if is_root(kept.as_slice()) {
        return Ok(path);
    }
    let parts = kept.as_slice();
    for part in parts {
        push_part(&mut path, part.as_bytes())?;
    }
    Ok(path)
}

// Whether the segments are one that is empty, which stands for none.
fn is_root(parts: &[&str]) -> bool
    ensures { result ≡ is_root (map (λ s. s.now) parts.now) }
{
    match parts {
        [part] => part.is_empty(),
        _ => false,
    }
}

// Whether a segment is one of dots.
fn is_dots(part: &str) -> bool
    ensures { result ≡ is_dots part.now }
{
    part == SAME || part == ABOVE
}

// The segments that are left where those of dots are gone. Behind one of these at the end an empty one is left.
fn kept_of<'a, A: Allocator + Copy>(
    alloc: A,
    text: &'a str,
) -> Result<Vec<&'a str, A>, UriPathRefusal>
    ensures kept { IfOk result (λ kept. map (λ s. s.now) kept.items ≡ resolved (parts text.now)) }
    ensures escaped { OnOk result (AreEscaped text.now) }
    ensures each { IfOk result (λ kept. All (λ s. is_escaped s ≡ true) (map (λ s. s.now) kept.items)) }
    ensures refused { IfErr result (λ e. (e ≡ UriPathRefusal.Memory)
        ⊎ ((e ≡ UriPathRefusal.Percent) × (AreEscaped text.now → ⊥))) }
{
    let mut kept = Vec::new(alloc);
    let mut ends_in_dots = false;
    for part in text.split('/') {
        if !is_escaped(part.as_bytes()) {
            return Err(UriPathRefusal::Percent);
        }
        ends_in_dots = is_dots(part);
        keep(&mut kept, part)?;
    }
    if ends_in_dots {
        add(&mut kept, "")?;
        return Ok(kept);
    }
    Ok(kept)
}

// Adds a segment behind those that are kept; one of dots is none, and two dots take the last one away.
fn keep<'a, A: Allocator + Copy>(
    kept: &mut Vec<&'a str, A>,
    part: &'a str,
) -> Result<(), AllocError>
    ensures { OnOk result (map (λ s. s.now) kept.new.items ≡ keeps (map (λ s. s.now) kept.old.items) part.entry.now) }
{
    match part {
        SAME => Ok(()),
        ABOVE => {
            kept.pop();
            Ok(())
        }
        other => add(kept, other),
    }
}

// Adds a segment behind the others.
fn add<'a, A: Allocator + Copy>(kept: &mut Vec<&'a str, A>, part: &'a str) -> Result<(), AllocError>
    ensures { OnOk result (kept.new.items ≡ kept.old.items ++ part.entry ∷ []) }
{
    kept.push(part)?;
    Ok(())
}

// Adds the segment that a part says.
fn push_part<A: Allocator + Copy>(path: &mut Path<A>, part: &[u8]) -> Result<(), UriPathRefusal>
    requires { is_escaped part.now ≡ true }
    ensures pushed { OnOk result (path.new ≡ path.old ++ unescaped part.now ∷ []) }
    ensures too_long { result ≡ Err UriPathRefusal.SegmentTooLong → MAX_SEGMENT_LEN < length (unescaped part.now) }
    ensures too_many { result ≡ Err UriPathRefusal.TooManySegments → MAX_SEGMENTS ≤ length path.old }
    ensures percent { result ≢ Err UriPathRefusal.Percent }
{
    let mut room = [0; MAX_SEGMENT_LEN];
    let Some(len) = unescape(part, &mut room) else {
        return Err(UriPathRefusal::SegmentTooLong);
    };
    match path.push(&room[..len]) {
        Ok(()) => Ok(()),
        Err(PathRefusal::TooManySegments) => Err(UriPathRefusal::TooManySegments),
        Err(PathRefusal::SegmentTooLong) => Err(UriPathRefusal::SegmentTooLong),
        Err(PathRefusal::Memory) => Err(UriPathRefusal::Memory),
    }
}
