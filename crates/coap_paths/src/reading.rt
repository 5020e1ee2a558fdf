//! The path that a text spells.
ghost use Rattle.std.specs.Prelude.{◌≡◌, ◌≢◌, ◌<◌, ◌++◌, ◌∷◌, ◌↔◌, [], true, length};
ghost use Rattle.std.specs.Prelude.{IfOk, IfSome, IfNone, OnOk};
ghost use Rattle.coap_paths.specs.Escapes.{unescaped};
ghost use Rattle.coap_paths.specs.PathTexts.{HasNoSlash, IsCut, IsFit, Makes, SpellsPath, parts, spelled};
ghost use Rattle.coap_paths.specs.PathTexts.{without_slash};

use crate::escapes::unescape;
use coap_types::{MAX_SEGMENT_LEN, MAX_SEGMENTS, Path};
use std::alloc::Allocator;
use thiserror::Error;

// What stands between two segments.
const SLASH: u8 = b'/';

/// Why a text gives no path.
#[derive(Clone, Copy, Debug, PartialEq, Eq, Error)]
pub enum PathTextRefusal {
    /// It has over 16 segments, one of over 255 bytes, or a percent sign that no two hexadecimal digits follow.
    #[error("no path: over 16 segments, one of over 255 bytes, or a percent sign without two hexadecimal digits")]
    BadText,
    /// An allocation was refused.
    #[error("no memory")]
    Memory,
}

// The text without its first byte, where that is a slash.
fn without_slash(text: &[u8]) -> &[u8]
    ensures { result.now ≡ without_slash text.now }
{
    text.strip_prefix(b"/").unwrap_or(text)
}

// What stands before the first slash, and what stands after it.
fn cut(text: &[u8]) -> Option<(&[u8], &[u8])>
    ensures cut { IfSome result (λ parts. IsCut text.now parts.0.now parts.1.now) }
    ensures none { IfNone result (HasNoSlash text.now) }
{
    let at = text.iter().position(|byte| *byte == SLASH)?;
    Some((&text[..at], &text[at + 1..]))
}

// Whether the part says a segment of a path, with so many before it.
fn fits(part: &[u8], before: usize) -> bool
    ensures { (result ≡ true) ↔ IsFit part.now before }
{
    let mut room = [0; MAX_SEGMENT_LEN];
    match unescape(part, &mut room) {
        Some(_) => before < MAX_SEGMENTS,
        None => false,
    }
}

// Whether what stands between the slashes makes a path.
fn makes_path(text: &[u8]) -> bool
    ensures { (result ≡ true) ↔ Makes (parts text.now) }
{
    let mut left = text;
    let mut before = 0usize;
    'segments: while let Some((segment, after)) = cut(left) {
        if !fits(segment, before) {
            return false;
        }
        before += 1;
        left = after;
    }
    fits(left, before)
}

// Adds the segment that a part says; false where that fails.
fn push_part<A: Allocator + Copy>(path: &mut Path<A>, part: &[u8]) -> bool
    ensures { result ≡ true → path.new ≡ path.old ++ unescaped part.now ∷ [] }
{
    let mut room = [0; MAX_SEGMENT_LEN];
    match unescape(part, &mut room) {
        Some(len) => match path.push(&room[..len]) {
            Ok(()) => true,
            Err(_) => false,
        },
        None => false,
    }
}

/// The path that a text spells: a `/` before each segment, of which the first may be left out. In a segment `%` and two
/// hexadecimal digits are the byte of that number.
pub fn path_of<A: Allocator + Copy>(alloc: A, text: &[u8]) -> Result<Path<A>, PathTextRefusal>
    // The path of a text is the one that it spells.
    ensures spelled { IfOk result (λ path. path ≡ spelled text.now) }
    // A path is answered only for a text that spells one.
    ensures fits { OnOk result (SpellsPath text.now) }
    // A text is refused as bad exactly where it spells no path.
    ensures bad { (result ≡ Err PathTextRefusal.BadText) ↔ (SpellsPath text.now → ⊥) }
    // Want of memory is answered only for a text that spells a path of at least one segment.
    ensures memory { result ≡ Err PathTextRefusal.Memory → SpellsPath text.now × (spelled text.now ≢ []) }
{
    let mut path = Path::new(alloc);
    let rest = without_slash(text);
    if rest.is_empty() {
        return Ok(path);
    }
    if !makes_path(rest) {
        return Err(PathTextRefusal::BadText);
    }
    let mut left = rest;
    'segments: while let Some((segment, after)) = cut(left) {
        if !push_part(&mut path, segment) {
            return Err(PathTextRefusal::Memory);
        }
        left = after;
    }
    if !push_part(&mut path, left) {
        return Err(PathTextRefusal::Memory);
    }
    Ok(path)
}
