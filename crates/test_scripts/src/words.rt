//! What the words of a step mean.
use crate::spelling::cut;
use crate::wrong::Wrong;
use coap_types::{BodyLimit, Method, Request, Szx, Tag, Tags};
use std::alloc::{Allocator, Global};

/// The method that a word names.
pub fn method_of(word: &str) -> Result<Method, Wrong> {
    match word {
        "get" => Ok(Method::Get),
        "post" => Ok(Method::Post),
        "put" => Ok(Method::Put),
        "delete" => Ok(Method::Delete),
        _ => Err(Wrong::Because("there is no such method")),
    }
}

/// A Content-Format, or `-` for none.
pub fn format_of(word: &str) -> Result<Option<u16>, Wrong> {
    Ok(match word {
        "-" => None,
        _ => Some(word.parse()?),
    })
}

/// A size exponent of blocks (RFC 7959, section 2.2).
pub fn szx_of(number: u8) -> Result<Szx, Wrong> {
    match Szx::new(number) {
        Some(szx) => Ok(szx),
        None => Err(Wrong::Because("a size exponent is 0 to 6")),
    }
}

/// A limit of bodies, in bytes.
pub fn limit_of(bytes: usize) -> Result<BodyLimit, Wrong> {
    match BodyLimit::new(bytes) {
        Some(limit) => Ok(limit),
        None => Err(Wrong::Because("a limit is 1 to 1,048,576 bytes")),
    }
}

/// Adds an entity-tag, in hex.
pub fn push_tag(alloc: Global, tags: &mut Tags, word: &str) -> Result<(), Wrong> {
    let bytes: Vec<u8> = hex::decode(alloc, word)?;
    let Some(tag) = Tag::new(bytes.as_slice()) else {
        return Err(Wrong::Because("a tag has 1 to 8 bytes"));
    };
    match tags.push(tag) {
        Ok(()) => Ok(()),
        Err(_) => Err(Wrong::Because("there are at most 4 tags")),
    }
}

/// Puts an option into a request: `format=0`, `if-match=01`, `if-none-match`, `etag=01` or `accept=0`.
pub fn put_option<A: Allocator>(
    alloc: Global,
    request: &mut Request<A>,
    option: &str,
) -> Result<(), Wrong> {
    let (name, value) = cut(option, "=");
    match name {
        "" => Ok(()),
        "format" => {
            request.format = Some(value.parse()?);
            Ok(())
        }
        "accept" => {
            request.accept = Some(value.parse()?);
            Ok(())
        }
        "if-none-match" => {
            request.if_none_match = true;
            Ok(())
        }
        "etag" => push_tag(alloc, &mut request.etags, value),
        "if-match" => push_tag(alloc, &mut request.if_match, value),
        _ => Err(Wrong::Because("there is no such option")),
    }
}
