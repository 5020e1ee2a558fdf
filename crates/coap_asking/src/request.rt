//! The request that the words ask for.
ghost use Rattle.std.specs.Prelude.{◌≡◌, ◌+◌, IfOk, IfSome, take};
ghost use Rattle.coap_client.specs.Object.CallShown.{shown_request};
ghost use Rattle.coap_asking.specs.Asked.{IsBody, IsContent, asked_method, asked_request};

use bytes::Bytes;
use coap_arguments::{AskOptions, Content, What};
use coap_common::STANDARD_INPUT_FILE;
use coap_status::{Stop, stop_of};
use coap_types::{BodyLimit, Method, Path, Request, Tags};
use std::alloc::{AllocError, Global};
use std::fs;
use std::io::Read;
use std::rt::Files;

// The name that stands for standard input.
const STANDARD_INPUT: &str = "-";

// The method of what is asked for (RFC 7252, section 5.8).
fn method_of(what: What<'_>) -> Method
    ensures { result ≡ asked_method what.entry }
{
    match what {
        What::Get => Method::Get,
        What::Put(_) => Method::Put,
        What::Post(_) => Method::Post,
        What::Delete => Method::Delete,
        What::Observe => Method::Get,
    }
}

// The same entity-tags again.
fn copy_of(tags: &Tags) -> Tags
    ensures { result ≡ tags.now }
{
    let mut copy = Tags::new();
    let all = tags.as_slice();
    for tag in all {
        match copy.push(tag.copy()) {
            Ok(()) => {}
            Err(_) => unreachable!(),
        }
    }
    copy
}

/// What the words ask for, with this body.
pub fn request_of(
    path: &Path,
    what: What<'_>,
    options: &AskOptions,
    body: Bytes,
) -> Result<Request, AllocError>
    // The request that the words ask for has their method, path and options, and this body.
    ensures { IfOk result (λ made. shown_request made ≡ asked_request what.entry path.now options.now body) }
{
    Ok(Request {
        method: method_of(what),
        path: path.clone()?,
        format: options.format,
        body,
        etags: copy_of(&options.etags),
        if_match: copy_of(&options.if_match),
        if_none_match: options.if_none_match,
        accept: options.accept,
    })
}

/// The body that is sent; of a longer one than the limit, as much as shows that.
pub fn body_of<R: AllocGlobal + Files>(
    rt: &R,
    what: What<'_>,
    limit: BodyLimit,
) -> Result<Bytes, Stop>
    // The body of a request is the text of the words; that of a file may be any, and a GET or a DELETE has none.
    ensures { IfOk result (IsBody what.entry) }
{
    match what {
        What::Get | What::Delete | What::Observe => Ok(Bytes::new()),
        What::Put(content) => content_bytes(rt, content, limit),
        What::Post(content) => content_bytes(rt, content, limit),
    }
}

// The bytes of a text, or of a file.
fn content_bytes<R: AllocGlobal + Files>(
    rt: &R,
    content: Content<'_>,
    limit: BodyLimit,
) -> Result<Bytes, Stop>
    ensures { IfOk result (IsContent content.entry) }
{
    match content {
        Content::Text(text) => Ok(Bytes::copy_from_slice(rt.alloc(), text.as_bytes())?),
        Content::File(name) => file_bytes(rt, name, limit),
    }
}

// What is in a file, of a longer one than the limit one byte more than that.
fn file_bytes<R: AllocGlobal + Files>(rt: &R, name: &str, limit: BodyLimit) -> Result<Bytes, Stop> {
    let name = if name == STANDARD_INPUT {
        STANDARD_INPUT_FILE
    } else {
        name
    };
    match fs::open(rt, name) {
        Ok(file) => read_over(rt.alloc(), file, limit),
        Err(error) => Err(stop_of(&error)),
    }
}

// What there is to read; of more than the limit one byte more than that.
fn read_over<R: Read + Drop>(alloc: Global, file: R, limit: BodyLimit) -> Result<Bytes, Stop>
    ensures { IfOk result (λ bytes. IfSome (R.remaining file) (λ rest. bytes ≡ take (limit + 1) rest)) }
{
    let most = (limit.get() as u64).saturating_add(1);
    read_up_to(alloc, file, most)
}

// What there is to read, up to so many bytes.
fn read_up_to<R: Read + Drop>(alloc: Global, file: R, most: u64) -> Result<Bytes, Stop>
    ensures { IfOk result (λ bytes. IfSome (R.remaining file) (λ rest. bytes ≡ take most rest)) }
{
    let mut bytes = Vec::new(alloc);
    match file.take(most).read_to_end(&mut bytes) {
        Ok(_) => Ok(Bytes::from_vec(bytes).map_err(|_| Stop::Memory)?),
        Err(error) => Err(stop_of(&error)),
    }
}
