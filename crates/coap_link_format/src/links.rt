//! The links of a text.
ghost use Rattle.std.specs.Prelude.{◌≡◌, ◌≤◌, ◌<◌, ◌+◌, ◌-◌, ◌++◌, ◌∷◌, [], ℕ, List, Some};
ghost use Rattle.std.specs.Prelude.{IfErr, IfNone, IfOk, IfSome, OnOk, length, map, option_map};
ghost use Rattle.coap_link_format.specs.LinkFormat.{AreLinks, IsLink, Spells};
ghost use Rattle.coap_link_format.specs.BadPlaces.{IsBadAt, IsBadFrom, IsLeft, IsOther, after_comma, left_len};

use crate::places::walk;
use std::alloc::{AllocError, Allocator};
use thiserror::Error;

// What stands between two links.
const COMMA: u8 = b',';

// What ends a target.
const TARGET_END: u8 = b'>';

/// A link: its target in angle brackets, and its attributes (RFC 6690, section 2).
#[derive(Clone, Copy, Debug, PartialEq, Eq)]
pub struct Link<'a> {
    /// Its bytes.
    pub text: &'a [u8],
}

impl<'a> Link<'a> {
    /// Its target: what stands between the angle brackets.
    pub fn target(&self) -> &'a [u8] {
        let inner = self.text.strip_prefix(b"<").unwrap_or(self.text);
        match inner.iter().position(|byte| *byte == TARGET_END) {
            Some(at) => &inner[..at],
            None => inner,
        }
    }
}

/// Why a text gives no links.
#[derive(Clone, Copy, Debug, PartialEq, Eq, Error)]
pub enum LinksRefusal {
    /// It is no link format: the byte at this place is the first that can't stand there; at its length, the text ends
    /// where it may not.
    #[error("bad links at {0}")]
    Bad(usize),
    /// An allocation was refused.
    #[error("no memory")]
    Memory,
}

impl From<AllocError> for LinksRefusal {
    ghost use Rattle.coap_link_format.specs.declared.links.LinksRefusal.{LinksRefusal};

    ghost from_gives = { λ _ refusal. refusal ≡ LinksRefusal.Memory };

    fn from(_error: AllocError) -> LinksRefusal {
        LinksRefusal::Memory
    }
}

// What stands behind the comma that a text begins with, nothing where it is empty; None where another byte stands
// there.
fn behind_comma(text: &[u8]) -> Option<Option<&[u8]>>
    ensures some { IfSome result (λ rest. text.now ≡ after_comma (option_map (λ s. s.now) rest)) }
    ensures none { IfNone result (IsOther text.now) }
{
    match text.split_first() {
        None => Some(None),
        Some((first, rest)) => {
            if *first == COMMA {
                Some(Some(rest))
            } else {
                None
            }
        }
    }
}

// The first link of a text, and what stands behind the comma after it, where there is one; or the first bad place.
fn first_link(text: &[u8]) -> Result<(&[u8], Option<&[u8]>), usize>
    ensures ok { IfOk result (λ r. IsLink r.0.now × (text.now ≡ r.0.now ++ after_comma (option_map (λ s. s.now) r.1))) }
    ensures bad { IfErr result (λ n. IsBadFrom n text.now) }
{
    let (len, place) = walk(text);
    let (link, after) = text.split_at(len);
    if !place.is_end() {
        return Err(len);
    }
    match behind_comma(after) {
        Some(rest) => Ok((link, rest)),
        None => Err(len),
    }
}

// Adds a link behind the others.
fn add<'a, A: Allocator + Copy>(
    links: &mut Vec<Link<'a>, A>,
    text: &'a [u8],
) -> Result<(), AllocError>
    ensures { OnOk result (map (λ l. l.text.now) links.new.items
        ≡ map (λ l. l.text.now) links.old.items ++ text.now ∷ []) }
{
    links.push(Link { text })?;
    Ok(())
}

// What is left of a text at its begin.
fn begun(text: &[u8]) -> Option<&[u8]>
    ensures { IsLeft text.now [] (option_map (λ s. s.now) result) }
{
    if text.is_empty() { None } else { Some(text) }
}

// The place in a text at which a rest of it is bad at this place.
fn place_in(text: &[u8], rest: &[u8], at: usize) -> usize
    requires within { length rest.now ≤ length text.now }
    requires fits { at ≤ length rest.now }
    ensures { result ≡ length text.now - length rest.now + at }
{
    text.len() - rest.len() + at
}

// Takes the first link of what is left, and answers what is left behind it.
fn take_link<'a, A: Allocator + Copy>(
    links: &mut Vec<Link<'a>, A>,
    text: &[u8],
    rest: &'a [u8],
) -> Result<Option<&'a [u8]>, LinksRefusal>
    requires are { AreLinks (map (λ l. l.text.now) links.old.items) }
    requires left { IsLeft text.now (map (λ l. l.text.now) links.old.items) (Some rest.now) }
    ensures are { OnOk result (AreLinks (map (λ l. l.text.now) links.new.items)) }
    ensures left { IfOk result (λ after. IsLeft text.now (map (λ l. l.text.now) links.new.items)
        (option_map (λ s. s.now) after)) }
    ensures shorter { IfOk result (λ after. left_len (option_map (λ s. s.now) after) < left_len (Some rest.now)) }
    ensures bad { (n : ℕ) → result ≡ Err (LinksRefusal.Bad n) → IsBadAt n text.now }
{
    match first_link(rest) {
        Ok((link, after)) => match add(links, link) {
            Ok(()) => Ok(after),
            Err(_) => Err(LinksRefusal::Memory),
        },
        Err(at) => Err(LinksRefusal::Bad(place_in(text, rest, at))),
    }
}

/// The links that a text spells, in order; none where it is empty.
pub fn links_of<A: Allocator + Copy>(
    alloc: A,
    text: &[u8],
) -> Result<Vec<Link<'_>, A>, LinksRefusal>
    // The links are those that the text spells.
    ensures ok { IfOk result (λ links. Spells text.now (map (λ l. l.text.now) links.items)) }
    // A text spells no other links.
    ensures only { IfOk result (λ links. (others : List (List ℕ)) → Spells text.now others
        → map (λ l. l.text.now) links.items ≡ others) }
    // A text is refused only where it is no link format, and the place is the first at which it can't go on so.
    ensures bad { (n : ℕ) → result ≡ Err (LinksRefusal.Bad n) → IsBadAt n text.now }
{
    let mut links = Vec::new(alloc);
    let mut left = begun(text);
    'links: while let Some(rest) = left {
        match take_link(&mut links, text, rest) {
            Ok(after) => left = after,
            Err(refusal) => return Err(refusal),
        }
    }
    Ok(links)
}
