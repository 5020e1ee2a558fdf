//! The lines of what is told besides reports.
ghost use Rattle.std.specs.Prelude.{◌≡◌, ◌∷◌, [], codes, IfOk};
ghost use Rattle.json.specs.Json.{string};
ghost use Rattle.coap_client.specs.RefusalNumbers.{call_refusal_number};
ghost use Rattle.coap_json.specs.Objects.{IsLineOf, bytes_fields, whole};
ghost use Rattle.coap_json.specs.OtherObjects.{applied_fields, applied_object, gave_up_object, method_name, ping_name};
ghost use Rattle.coap_json.specs.OtherObjects.{ping_object, refused_object};
ghost use Rattle.coap_json.specs.Written.{AddsFields};

use crate::line::{add_bytes, add_text, add_whole, begin, end};
use coap_client::CallRefusal;
use coap_types::{Method, Moment};
use json::Writer;
use std::alloc::{AllocError, Allocator};

// Adds the number of a refusal.
fn add_number<A: Allocator>(writer: &mut Writer<A>, refusal: CallRefusal) -> Result<(), AllocError>
    ensures { AddsFields result writer.old writer.new
        ((codes "number", whole (call_refusal_number refusal)) ∷ []) }
{
    add_whole(writer, "number", u64::from(refusal.number()))
}

/// The line of a call that a client did not take at this moment: the number of the refusal.
pub fn refused_line<A: Allocator + Copy>(
    alloc: A,
    at: Moment,
    refusal: CallRefusal,
) -> Result<Vec<u8, A>, AllocError>
    // The line of a refusal is the text of an object with its number.
    ensures { IfOk result (λ line. IsLineOf line.items (refused_object at.0 refusal)) }
{
    let mut writer = begin(alloc, at, "refused")?;
    add_number(&mut writer, refusal)?;
    end(writer)
}

/// The line of a call that is given up at this moment, after so many seconds.
pub fn gave_up_line<A: Allocator + Copy>(
    alloc: A,
    at: Moment,
    seconds: u64,
) -> Result<Vec<u8, A>, AllocError>
    // The line of what is given up is the text of an object with the seconds.
    ensures { IfOk result (λ line. IsLineOf line.items (gave_up_object at.0 seconds)) }
{
    let mut writer = begin(alloc, at, "gave-up")?;
    add_whole(&mut writer, "seconds", seconds)?;
    end(writer)
}

/// What came of an Empty Confirmable message (RFC 7252, section 4.3).
#[derive(Clone, Copy, Debug, PartialEq, Eq)]
pub enum PingEnd {
    /// Its Reset came.
    Reset,
    /// None came in time.
    Timeout,
}

// What the end of a ping is called.
fn ping_name(end: PingEnd) -> &'static str
    ensures { result.now ≡ ping_name end }
{
    match end {
        PingEnd::Reset => "reset",
        PingEnd::Timeout => "timeout",
    }
}

/// The line of what came of an Empty Confirmable message at this moment, so many milliseconds after it was first sent.
pub fn ping_line<A: Allocator + Copy>(
    alloc: A,
    at: Moment,
    came: PingEnd,
    took: u64,
) -> Result<Vec<u8, A>, AllocError>
    // The line of a ping is the text of an object that says what came of it, and how long that took.
    ensures { IfOk result (λ line. IsLineOf line.items (ping_object at.0 came took)) }
{
    let mut writer = begin(alloc, at, ping_name(came))?;
    add_whole(&mut writer, "took", took)?;
    end(writer)
}

// What a method is called (RFC 7252, section 12.1.1).
fn method_name(method: Method) -> &'static str
    ensures { result.now ≡ method_name method }
{
    match method {
        Method::Get => "GET",
        Method::Post => "POST",
        Method::Put => "PUT",
        Method::Delete => "DELETE",
    }
}

// Adds the method and the path of a request.
fn add_request<A: Allocator>(
    writer: &mut Writer<A>,
    method: Method,
    path: &str,
) -> Result<(), AllocError>
    ensures { AddsFields result writer.old writer.new
        ((codes "method", string (method_name method)) ∷ (codes "path", string path.now) ∷ []) }
{
    add_text(writer, "method", method_name(method))?;
    add_text(writer, "path", path)
}

// Adds a version, and what a path holds.
fn add_held<A: Allocator + Copy>(
    alloc: A,
    writer: &mut Writer<A>,
    version: u64,
    body: &[u8],
) -> Result<(), AllocError>
    ensures { AddsFields result writer.old writer.new ((codes "version", whole version) ∷ bytes_fields body.now) }
{
    add_whole(writer, "version", version)?;
    add_bytes(alloc, writer, body)
}

// Adds what is told of a request that was applied.
fn add_applied<A: Allocator + Copy>(
    alloc: A,
    writer: &mut Writer<A>,
    method: Method,
    path: &str,
    version: u64,
    body: &[u8],
) -> Result<(), AllocError>
    ensures { AddsFields result writer.old writer.new (applied_fields method path.now version body.now) }
{
    add_request(writer, method, path)?;
    add_held(alloc, writer, version, body)
}

/// The line of a request that a server applied at this moment: its method, the text of its path, the version that it
/// made, and what the path holds then.
pub fn applied_line<A: Allocator + Copy>(
    alloc: A,
    at: Moment,
    method: Method,
    path: &str,
    version: u64,
    body: &[u8],
) -> Result<Vec<u8, A>, AllocError>
    // The line of a request that was applied is the text of an object that has it whole.
    ensures { IfOk result (λ line. IsLineOf line.items (applied_object at.0 method path.now version body.now)) }
{
    let mut writer = begin(alloc, at, "applied")?;
    add_applied(alloc, &mut writer, method, path, version, body)?;
    end(writer)
}
