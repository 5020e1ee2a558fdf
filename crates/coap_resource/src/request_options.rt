//! The options of a request that a store reads (RFC 7252, section 5.10).
ghost use Rattle.std.specs.Prelude.{◌≡◌, ◌≤◌, IfSome, is_some, option_copied};
ghost use Rattle.coap_types.specs.CoapOption.{options_of};
ghost use Rattle.coap_resource.specs.RequestOptions.{accepts, block_of, etag_names, format_of, if_match_names};
ghost use Rattle.coap_resource.specs.RequestOptions.{is_tag_of, matches, offset_by, precondition_fails, szx_by};
ghost use Rattle.coap_types.specs.OptionValues.{has, uint_at, value_of};
ghost use Rattle.coap_resource.specs.Shown.{shown};

use crate::representation::Representation;
use coap_types::option_number::{ACCEPT, BLOCK2, CONTENT_FORMAT, ETAG, IF_MATCH, IF_NONE_MATCH};
use coap_types::{Block, MAX_NUM, Opt, Szx, uint_of};
use std::alloc::Allocator;

/// The value of the first option of this number.
pub fn value_of<'a>(options: &[Opt<'a>], number: u16) -> Option<&'a [u8]>
    // The value is that of the first option of this number.
    ensures { option_copied result ≡ value_of number (options_of options.now) }
{
    for option in options {
        if option.number == number {
            return Some(option.value);
        }
    }
    None
}

/// Whether there is an option of this number.
pub fn has(options: &[Opt<'_>], number: u16) -> bool
    // The answer is whether an option has this number.
    ensures { result ≡ has number (options_of options.now) }
{
    value_of(options, number).is_some()
}

// The number that the first option of this number spells.
fn uint_at(options: &[Opt<'_>], number: u16) -> Option<u32>
    ensures { result ≡ uint_at number (options_of options.now) }
{
    uint_of(value_of(options, number)?)
}

// Whether a value is the entity-tag of this version.
fn is_tag_of(value: &[u8], version: u64) -> bool
    ensures { result ≡ is_tag_of version value.now }
{
    value == version.to_be_bytes().as_slice()
}

// Whether an If-Match value matches this version.
fn matches(value: &[u8], version: u64) -> bool
    ensures { result ≡ matches version value.now }
{
    match value {
        [] => true,
        _ => is_tag_of(value, version),
    }
}

/// Whether an ETag names this version (RFC 7252, section 5.10.6.2).
pub(crate) fn etag_names(options: &[Opt<'_>], version: u64) -> bool
    ensures { result ≡ etag_names version (options_of options.now) }
{
    for option in options {
        if option.number == ETAG && is_tag_of(option.value, version) {
            return true;
        }
    }
    false
}

// Whether an If-Match matches this version.
fn if_match_names(options: &[Opt<'_>], version: u64) -> bool
    ensures { result ≡ if_match_names version (options_of options.now) }
{
    for option in options {
        if option.number == IF_MATCH && matches(option.value, version) {
            return true;
        }
    }
    false
}

/// Whether the preconditions of a request fail for what the path holds (RFC 7252, section 5.10.8).
#[inline(always)]
pub(crate) fn precondition_fails<A: Allocator>(
    held: Option<&Representation<A>>,
    options: &[Opt<'_>],
) -> bool
    ensures { result ≡ precondition_fails (shown (option_copied held.entry)) (options_of options.now) }
{
    match held {
        None => has(options, IF_MATCH),
        Some(held) => {
            has(options, IF_MATCH) && !if_match_names(options, held.version)
                || has(options, IF_NONE_MATCH)
        }
    }
}

/// The Content-Format (RFC 7252, section 5.10.3).
pub(crate) fn format_of(options: &[Opt<'_>]) -> Option<u16>
    ensures { result ≡ format_of (options_of options.now) }
{
    u16::try_from(uint_at(options, CONTENT_FORMAT)?).ok()
}

/// Whether a representation of this format is acceptable (RFC 7252, section 5.10.4).
pub(crate) fn accepts(options: &[Opt<'_>], format: Option<u16>) -> bool
    ensures { result ≡ accepts format (options_of options.now) }
{
    let Some(value) = value_of(options, ACCEPT) else {
        return true;
    };
    match (format, uint_of(value)) {
        (Some(format), Some(wanted)) => u32::from(format) == wanted,
        _ => false,
    }
}

/// The block of a body that a GET asks for.
#[derive(Clone, Copy, Debug)]
pub(crate) struct Wanted {
    /// Whether there is a Block2.
    pub(crate) by_block: bool,
    /// Where the block begins, in bytes.
    pub(crate) offset: u32,
    /// The size of the block to be sent.
    pub(crate) szx: Szx,
}

// The block that Block2 asks for.
fn block_of(options: &[Opt<'_>]) -> Option<Block>
    ensures block { result ≡ block_of (options_of options.now) }
    ensures few { IfSome result (λ block. block.num ≤ MAX_NUM) }
{
    Block::of(uint_at(options, BLOCK2)?)
}

/// What the Block2 of a request asks for, where the server sends blocks of at most this size
/// (RFC 7959, section 2.4).
#[inline(always)]
pub(crate) fn wanted_block(options: &[Opt<'_>], szx: Szx) -> Wanted
    ensures by_block { result.by_block ≡ is_some (block_of (options_of options.now)) }
    ensures offset { result.offset ≡ offset_by (block_of (options_of options.now)) }
    ensures szx { result.szx ≡ szx_by (block_of (options_of options.now)) szx }
{
    match block_of(options) {
        None => Wanted {
            by_block: false,
            offset: 0,
            szx,
        },
        Some(block) => Wanted {
            by_block: true,
            offset: block.num * block.szx.size() as u32,
            szx: if block.szx.get() < szx.get() {
                block.szx
            } else {
                szx
            },
        },
    }
}
