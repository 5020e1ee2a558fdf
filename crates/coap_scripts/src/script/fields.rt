//! The words of a line of a script.
ghost use Rattle.std.specs.Prelude.{◌≡◌, ◌==◌, ◌⊎◌, ℕ, slice_index, List, IfErr, IfNone, IfOk, IfSome};
ghost use Rattle.coap_scripts.specs.ScriptWords.{IsCut, IsWord, Lacks, SaysNumber, side_word};
ghost use Rattle.coap_types.specs.Path.{HoldsAtMost};
ghost use Rattle.coap_run.specs.declared.running.event.Side.{Side};
ghost use Rattle.coap_arguments.specs.PathText.{IsNoPath, IsPathText, without_leading_slash};

use crate::script::refusal::LineRefusal;
use coap_run::Side;
use coap_types::{MAX_SEGMENT_LEN, MAX_SEGMENTS, Path};
use std::alloc::Allocator;
use std::str;

// What stands between two words.
const SPACE: u8 = b' ';
// What may stand before a number elsewhere.
const PLUS: u8 = b'+';
// What stands between two segments of a path.
const SLASH: u8 = b'/';

/// What stands before the first such byte, and what stands after it.
pub(super) fn cut_at(text: &[u8], byte: u8) -> Option<(&[u8], &[u8])>
    ensures cut { IfSome result (λ parts. IsCut byte text.now parts.0.now parts.1.now) }
    ensures none { IfNone result (Lacks byte text.now) }
{
    let at = text.iter().position(|other| *other == byte)?;
    Some((&text[..at], &text[at + 1..]))
}

/// The first word of a line of several, and what comes behind the space after it.
pub(super) fn cut(line: &[u8]) -> Result<(&[u8], &[u8]), LineRefusal>
    ensures cut { IfOk result (λ parts. IsCut SPACE line.now parts.0.now parts.1.now) }
    ensures refused { IfErr result (λ e. (e ≡ LineRefusal.Unreadable) × IsWord line.now) }
{
    match cut_at(line, SPACE) {
        Some(parts) => Ok(parts),
        None => Err(LineRefusal::Unreadable),
    }
}

/// The word that ends a line.
pub(super) fn last_word(line: &[u8]) -> Result<&[u8], LineRefusal>
    ensures word { IfOk result (λ word. (word.now ≡ line.now) × IsWord line.now) }
    ensures refused { IfErr result (λ e. (e ≡ LineRefusal.Unreadable) × (IsWord line.now → ⊥)) }
{
    match cut_at(line, SPACE) {
        Some(_) => Err(LineRefusal::Unreadable),
        None => Ok(line),
    }
}

// Whether a plus stands first, which `parse` would read.
fn has_plus(word: &[u8]) -> bool
    ensures { result ≡ (slice_index word.now 0 == PLUS) }
{
    !word.is_empty() && word[0] == PLUS
}

/// The number of 64 bits that a word of decimal digits says.
pub(super) fn number(word: &[u8]) -> Result<u64, LineRefusal>
    ensures said { IfOk result (λ n. SaysNumber word.now n) }
    ensures refused { IfErr result (λ e. (e ≡ LineRefusal.Unreadable) × ((n : ℕ) → SaysNumber word.now n → ⊥)) }
{
    if has_plus(word) {
        return Err(LineRefusal::Unreadable);
    }
    let Ok(text) = str::from_utf8(word) else {
        return Err(LineRefusal::Unreadable);
    };
    match text.parse::<u64>() {
        Ok(number) => Ok(number),
        Err(_) => Err(LineRefusal::Unreadable),
    }
}

/// The end that a word names.
pub(super) fn side(word: &[u8]) -> Result<Side, LineRefusal>
    ensures named { IfOk result (λ side. word.now ≡ side_word side) }
    ensures refused { IfErr result (λ e. (e ≡ LineRefusal.Unreadable)
        × ((side : Side) → word.now ≡ side_word side → ⊥)) }
{
    match word {
        b"client" => Ok(Side::Client),
        b"server" => Ok(Side::Server),
        _ => Err(LineRefusal::Unreadable),
    }
}

// The word, of which one leading slash is dropped.
fn without_slash(word: &[u8]) -> &[u8]
    ensures { result.now ≡ without_leading_slash word.now }
{
    word.strip_prefix(b"/").unwrap_or(word)
}

/// The path that a word says: segments joined by `/`, where one leading `/` is dropped; `/` and the
/// empty word are the path without segments.
pub(super) fn path<A: Allocator + Copy>(alloc: A, word: &[u8]) -> Result<Path<A>, LineRefusal>
    // The path is what the text of the word says, which says no other.
    ensures said { IfOk result (λ path. IsPathText word.now path × HoldsAtMost MAX_SEGMENTS MAX_SEGMENT_LEN path) }
    ensures only { IfOk result (λ path. (segments : List (List ℕ)) → IsPathText word.now segments → segments ≡ path) }
    // A word is refused only where what it says is no path, or for want of memory.
    ensures refused { IfErr result (λ e. (e ≡ LineRefusal.Memory)
        ⊎ ((e ≡ LineRefusal.Unreadable) × IsNoPath word.now)) }
{
    let mut path = Path::new(alloc);
    let rest = without_slash(word);
    if rest.is_empty() {
        return Ok(path);
    }
    let mut left = rest;
    'segments: while let Some((segment, behind)) = cut_at(left, SLASH) {
        path.push(segment)?;
        left = behind;
    }
    path.push(left)?;
    Ok(path)
}
