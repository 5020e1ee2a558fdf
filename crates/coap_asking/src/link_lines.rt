//! The line of a link (RFC 6690, section 2).
ghost use Rattle.std.specs.Prelude.{◌≡◌, ◌⊎◌, ◌≤◌, ◌++◌, IfNone, OnOk, codes, length, slice_index};
ghost use Rattle.std.specs.Io.KnownBytes.{Appends};

use coap_json::{Parameter, link_line};
use coap_link_format::Link;
use coap_status::Stop;
use coap_types::Moment;
use std::alloc::{AllocError, Global};
use std::io::Write;

// What stands between the attributes of a link, and what encloses a value; what stands before a byte in such a one that
// stands for itself.
const SEMICOLON: u8 = b';';

const QUOTE: u8 = b'"';

const BACKSLASH: u8 = b'\\';

const EQUALS: u8 = b'=';

// How far a text goes until such a byte that stands in no quotes.
fn len_until_semicolon(text: &[u8]) -> usize
    ensures within { result ≤ length text.now }
    ensures stops { (result ≡ length text.now) ⊎ (slice_index text.now result ≡ SEMICOLON) }
{
    let mut is_quoted = false;
    let mut is_escaped = false;
    for (at, byte) in text.iter().enumerate() {
        if is_escaped {
            is_escaped = false;
        } else if *byte == BACKSLASH {
            is_escaped = is_quoted;
        } else if *byte == QUOTE {
            is_quoted = !is_quoted;
        } else if *byte == SEMICOLON && !is_quoted {
            return at;
        }
    }
    text.len()
}

// An attribute of a link: its name, and its value without quotes, where it has one.
#[derive(Drop)]
struct Attribute {
    name: String,
    value: Option<Vec<u8>>,
}

// The bytes of a value: of one in quotes those that it stands for.
fn value_of(alloc: Global, text: &[u8]) -> Result<Vec<u8>, AllocError> {
    let Some(quoted) = text.strip_prefix(&[QUOTE]) else {
        return text.to_vec(alloc);
    };
    let mut bytes = Vec::new(alloc);
    let mut is_escaped = false;
    for byte in quoted {
        if !is_escaped && *byte == BACKSLASH {
            is_escaped = true;
        } else if is_escaped || *byte != QUOTE {
            is_escaped = false;
            bytes.push(*byte)?;
        }
    }
    Ok(bytes)
}

// What this text of an attribute says.
fn attribute_of(alloc: Global, text: &[u8]) -> Result<Attribute, AllocError> {
    let at = text.iter().position(|byte| *byte == EQUALS);
    let (name, value) = match at {
        Some(at) => (&text[..at], Some(value_of(alloc, &text[at + 1..])?)),
        None => (text, None),
    };
    // A name has bytes of ASCII alone.
    let name = String::from_str(alloc, str::from_utf8(name).unwrap_or(""))?;
    Ok(Attribute { name, value })
}

// The attributes of a link, in order.
fn attributes_of(alloc: Global, link: &Link<'_>) -> Result<Vec<Attribute>, AllocError> {
    let mut attributes = Vec::new(alloc);
    // Behind the target and its brackets.
    let mut left = link.text.get(link.target().len() + 2..).unwrap_or(&[]);
    'attributes: while let Some((_semicolon, rest)) = left.split_first() {
        let (first, after) = rest.split_at(len_until_semicolon(rest));
        attributes.push(attribute_of(alloc, first)?)?;
        left = after;
    }
    Ok(attributes)
}

// An attribute as it is told in JSON.
fn parameter_of(attribute: &Attribute) -> Parameter<'_> {
    let name = attribute.name.as_str();
    let value = attribute.value.as_deref();
    Parameter { name, value }
}

// The line of a link in JSON.
fn json_line(alloc: Global, at: Moment, link: &Link<'_>) -> Result<Vec<u8>, AllocError> {
    let attributes = attributes_of(alloc, link)?;
    let mut parameters = Vec::new(alloc);
    for attribute in &attributes {
        parameters.push(parameter_of(attribute))?;
    }
    // A target has bytes of ASCII alone.
    let target = str::from_utf8(link.target()).unwrap_or("");
    link_line(alloc, at, target, parameters.as_slice())
}

/// Writes the line of a link: in JSON where that is wanted, with this moment.
pub(crate) fn write_link<W: Write>(
    alloc: Global,
    link: &Link<'_>,
    json: Option<Moment>,
    out: &mut W,
) -> Result<(), Stop>
    ensures words { IfNone json (OnOk result (Appends (W.contents out.old) (W.contents out.new)
        (link.now.text.now ++ codes "\n"))) }
{
    match json {
        Some(at) => {
            let line = json_line(alloc, at, link)?;
            out.write_all(line.as_slice())?;
        }
        None => {
            out.write_all(link.text)?;
            writeln!(out)?;
        }
    }
    Ok(())
}
