//! A line, and the members of its object.
ghost use Rattle.std.specs.Prelude.{◌≡◌, ◌≤◌, ◌++◌, ◌∷◌, [], codes, IfOk};
ghost use Rattle.std.specs.Option.{option_map};
ghost use Rattle.json.specs.Json.{Json, max_depth, null, string};
ghost use Rattle.json.specs.Token.{begin_object, end_object};
ghost use Rattle.json.specs.Tree.{depth, json_tokens};
ghost use Rattle.coap_json.specs.Objects.{IsLineOf, bytes_fields, content_field, head_fields, hex, hex_or_null};
ghost use Rattle.coap_json.specs.Objects.{whole, whole_or_null};
ghost use Rattle.coap_json.specs.Written.{AddsFields, fields_tokens};

use coap_types::{Moment, Tag};
use json::Writer;
use std::alloc::{AllocError, Allocator};
use std::str::from_utf8;

// For how many bytes there is room at first. A line is a little longer than what it tells of.
const ROOM: usize = 256;

/// Adds a member: a text.
pub(crate) fn add_text<A: Allocator>(
    writer: &mut Writer<A>,
    name: &str,
    text: &str,
) -> Result<(), AllocError>
    ensures { AddsFields result writer.old writer.new ((name.now, string text.now) ∷ []) }
{
    writer.key(name)?;
    writer.string(text)
}

/// Adds a member: a number.
pub(crate) fn add_whole<A: Allocator>(
    writer: &mut Writer<A>,
    name: &str,
    number: u64,
) -> Result<(), AllocError>
    ensures { AddsFields result writer.old writer.new ((name.now, whole number) ∷ []) }
{
    writer.key(name)?;
    writer.u64(number)
}

/// Adds a member: null.
pub(crate) fn add_null<A: Allocator>(writer: &mut Writer<A>, name: &str) -> Result<(), AllocError>
    ensures { AddsFields result writer.old writer.new ((name.now, null) ∷ []) }
{
    writer.key(name)?;
    writer.null()
}

/// Adds a member: bytes in hex.
pub(crate) fn add_hex<A: Allocator + Copy>(
    alloc: A,
    writer: &mut Writer<A>,
    name: &str,
    bytes: &[u8],
) -> Result<(), AllocError>
    ensures { AddsFields result writer.old writer.new ((name.now, hex bytes.now) ∷ []) }
{
    let text = hex::encode(alloc, bytes)?;
    add_text(writer, name, text.as_str())
}

/// Adds the entity-tag, null where there is none.
pub(crate) fn add_tag<A: Allocator + Copy>(
    alloc: A,
    writer: &mut Writer<A>,
    tag: Option<&Tag>,
) -> Result<(), AllocError>
    ensures { AddsFields result writer.old writer.new
        ((codes "etag", hex_or_null (option_map (λ t. t.now) tag.entry)) ∷ []) }
{
    match tag {
        Some(tag) => add_hex(alloc, writer, "etag", tag.as_slice()),
        None => add_null(writer, "etag"),
    }
}

/// Adds the Content-Format, null where there is none.
pub(crate) fn add_format<A: Allocator>(
    writer: &mut Writer<A>,
    format: Option<u16>,
) -> Result<(), AllocError>
    ensures { AddsFields result writer.old writer.new ((codes "format", whole_or_null format) ∷ []) }
{
    match format {
        Some(format) => add_whole(writer, "format", u64::from(format)),
        None => add_null(writer, "format"),
    }
}

/// Adds bytes: as text where they are UTF-8, else in hex.
pub(crate) fn add_content<A: Allocator + Copy>(
    alloc: A,
    writer: &mut Writer<A>,
    bytes: &[u8],
) -> Result<(), AllocError>
    ensures { AddsFields result writer.old writer.new (content_field bytes.now ∷ []) }
{
    match from_utf8(bytes) {
        Ok(text) => add_text(writer, "text", text),
        Err(_) => add_hex(alloc, writer, "hex", bytes),
    }
}

/// Adds how many bytes there are, and what they are.
pub(crate) fn add_bytes<A: Allocator + Copy>(
    alloc: A,
    writer: &mut Writer<A>,
    bytes: &[u8],
) -> Result<(), AllocError>
    ensures { AddsFields result writer.old writer.new (bytes_fields bytes.now) }
{
    add_whole(writer, "bytes", bytes.len() as u64)?;
    add_content(alloc, writer, bytes)
}

/// Begins the object of a line: with the moment, and the name of what is told.
pub(crate) fn begin<A: Allocator + Copy>(
    alloc: A,
    at: Moment,
    name: &str,
) -> Result<Writer<A>, AllocError>
    ensures tokens { IfOk result (λ writer. writer.tokens
        ≡ begin_object ∷ fields_tokens (head_fields at.0 name.now)) }
    ensures before { IfOk result (λ writer. writer.before ≡ []) }
{
    let mut writer = Writer::new(Vec::with_capacity(alloc, ROOM)?);
    writer.begin_object()?;
    add_whole(&mut writer, "ms", at.0)?;
    add_text(&mut writer, "report", name)?;
    Ok(writer)
}

/// Ends the object, and the line.
pub(crate) fn end<A: Allocator>(mut writer: Writer<A>) -> Result<Vec<u8, A>, AllocError>
    ensures { IfOk result (λ line. (value : Json) → writer.before ≡ []
        → writer.tokens ++ end_object ∷ [] ≡ json_tokens value → depth value ≤ max_depth → IsLineOf line.items value) }
{
    writer.end_object()?;
    let mut line = writer.into_inner();
    line.push(b'\n')?;
    Ok(line)
}
