//! How each method is served (RFC 7252, section 5.8).
ghost use Rattle.std.specs.Prelude.{◌≡◌, ◌≢◌, ◌<◌, ◌≤◌, ◌^◌, IfOk, IsOk, IfSome, OnErr, OnOk, true, [], length, take};
ghost use Rattle.std.specs.Prelude.{drop};
ghost use Rattle.coap_types.specs.CoapOption.{options_of};
ghost use Rattle.coap_types.specs.Piece.{size_of};
ghost use Rattle.coap_resource.specs.Quiet.{IsQuiet, IsQuietBy};
ghost use Rattle.coap_resource.specs.RequestOptions.{precondition_fails};
ghost use Rattle.coap_resource.specs.ResponseOptions.{Fits};
ghost use Rattle.coap_resource.specs.Serves.{Serves, ServesMethod, block2_of, content_reply, got, question_of};
ghost use Rattle.coap_resource.specs.Serves.{refusal_code, reply_of};
ghost use Rattle.coap_resource.specs.Shown.{held_of};
ghost use Rattle.coap_resource.specs.declared.refusal.StoreRefusal.TheVariants.{Memory};

use crate::asking::Asking;
use crate::refusal::StoreRefusal;
use crate::representation::Representation;
use crate::request_options::{
    Wanted, accepts, etag_names, format_of, precondition_fails, wanted_block,
};
use crate::response::{Part, Response, bare};
use crate::store::Store;
use bytes::Bytes;
use coap_types::{Block, Code, MAX_BODY_LIMIT, MAX_NUM, MAX_SZX, Method, Moment, Path, Szx, Tag};
use std::alloc::{AllocError, Allocator};

// The code of a response to what the store refuses.
fn refusal_code(why: StoreRefusal) -> Result<Code, AllocError>
    ensures code { IfOk result (λ code. code.0 ≡ refusal_code why) }
    ensures memory { OnErr result (why ≡ Memory) }
    ensures others { OnOk result (why ≢ Memory) }
{
    match why {
        StoreRefusal::Memory => Err(AllocError),
        StoreRefusal::TooLarge => Ok(Code::REQUEST_ENTITY_TOO_LARGE),
        StoreRefusal::TooManyPaths | StoreRefusal::RateExceeded | StoreRefusal::VersionsSpent => {
            Ok(Code::SERVICE_UNAVAILABLE)
        }
    }
}

// The bytes of a body from this place on, at most so many, shared with it.
fn block_at<A: Allocator + Copy>(
    body: &Bytes<A>,
    start: usize,
    size: usize,
) -> Result<Bytes<A>, AllocError>
    requires { start ≤ length body.now }
    ensures part { IfOk result (λ part. part ≡ take size (drop start body.now)) }
    ensures empty { take size (drop start body.now) ≡ [] → IsOk result }
{
    if body.len() - start > size {
        body.slice(start..start + size)
    } else {
        body.slice(start..)
    }
}

// A number of 16 bits: what a call answers is known to fit its type.
fn of_16_bits(number: u16) -> u16
    ensures { result ≡ number }
{
    number
}

// The format of a representation.
fn own_format<A: Allocator>(held: &Representation<A>) -> Option<u16>
    ensures same { result ≡ held.now.format }
    ensures few { IfSome result (λ f. f < 2 ^ 16) }
{
    match held.format {
        None => None,
        Some(format) => Some(of_16_bits(format)),
    }
}

// The block of a body, where the response has Block2.
fn block_sent(wanted: &Wanted, len: usize) -> Option<Block>
    requires place { wanted.now.offset ≤ len }
    requires short { len ≤ MAX_BODY_LIMIT }
    ensures sent { result ≡ block2_of wanted.now.by_block wanted.now.offset wanted.now.szx len }
    ensures few { IfSome result (λ b. (b.num ≤ MAX_NUM) × (b.szx ≤ MAX_SZX)) }
{
    let size = wanted.szx.size();
    if !wanted.by_block && len <= size {
        return None;
    }
    let num = wanted.offset as usize / size;
    let more = len - wanted.offset as usize > size;
    let _exponent = wanted.szx.get();
    Some(Block {
        num: num as u32,
        more,
        szx: wanted.szx,
    })
}

// 2.05 with a block of a representation.
fn content<'a, A: Allocator>(
    held: &Representation<A>,
    wanted: Wanted,
    part: Part<'a, A>,
) -> Response<'a, A>
    requires place { wanted.offset ≤ length held.now.body }
    requires short { length held.now.body ≤ MAX_BODY_LIMIT }
    requires part { part ≡ take (size_of wanted.szx) (drop wanted.offset held.now.body) }
    ensures content { reply_of result
        ≡ content_reply (held_of held.now) wanted.by_block wanted.offset wanted.szx }
    ensures fits { Fits (reply_of result) }
{
    let _size = wanted.szx.size();
    let block2 = block_sent(&wanted, held.body.len());
    let format = own_format(held);
    let tag = Tag::new(&held.version.to_be_bytes());
    Response {
        code: Code::CONTENT,
        tag,
        format,
        block2,
        part,
        offset: wanted.offset,
    }
}

// .. that shares its payload with the store.
fn shared_content<A: Allocator + Copy>(
    held: &Representation<A>,
    wanted: Wanted,
) -> Result<Response<'static, A>, AllocError>
    requires place { wanted.offset ≤ length held.now.body }
    requires short { length held.now.body ≤ MAX_BODY_LIMIT }
    ensures content { IfOk result
        (λ r. reply_of r ≡ content_reply (held_of held.now) wanted.by_block wanted.offset wanted.szx) }
    ensures fits { IfOk result (λ r. Fits (reply_of r)) }
    ensures quiet { (content_reply (held_of held.now) wanted.by_block wanted.offset wanted.szx).part ≡ []
        → IsOk result }
{
    let part = block_at(&held.body, wanted.offset as usize, wanted.szx.size())?;
    Ok(content(held, wanted, Part::shared(part)))
}

// The first bytes of a body, at most so many, lent by it.
fn first_block<A: Allocator>(body: &Bytes<A>, size: usize) -> &[u8]
    ensures { result.now ≡ take size body.now }
{
    let bytes = body.as_slice();
    if bytes.len() > size {
        &bytes[..size]
    } else {
        bytes
    }
}

/// What a GET without options is answered in blocks of this size (RFC 7252, section 5.8.1). The store lends
/// the payload, so it takes no memory.
pub fn lent<'s, A: Allocator + Copy + 's, S: Store<A> + 's>(
    store: &'s S,
    path: &Path<A>,
    szx: Szx,
) -> Response<'s, A>
    // What is lent is what a GET without options is answered.
    ensures got { reply_of result ≡ got ((S.content store.now).holds path.now)
        (record { method = Method.Get; path = path.now; options = []; body = []; szx = szx }) }
    // A response that is lent has a code of a response, short values and at most a block of payload.
    ensures fits { Fits (reply_of result) }
{
    let Some(held) = store.get(path) else {
        return bare(Code::NOT_FOUND, 0);
    };
    let wanted = Wanted {
        by_block: false,
        offset: 0,
        szx,
    };
    content(
        held,
        wanted,
        Part::lent(first_block(&held.body, szx.size())),
    )
}

// A GET.
#[inline(always)]
fn serve_get<A: Allocator + Copy, S: Store<A>>(
    store: &S,
    asking: &Asking<'_, A>,
) -> Result<Response<'static, A>, AllocError>
    ensures got { IfOk result
        (λ r. reply_of r ≡ got ((S.content store.now).holds asking.now.path.now) (question_of asking.now)) }
    ensures fits { IfOk result (λ r. Fits (reply_of r)) }
    ensures quiet { (got ((S.content store.now).holds asking.now.path.now) (question_of asking.now)).part ≡ []
        → IsOk result }
{
    let wanted = wanted_block(asking.options, asking.szx);
    let Some(held) = store.get(asking.path) else {
        return Ok(bare(Code::NOT_FOUND, wanted.offset));
    };
    if !accepts(asking.options, held.format) {
        return Ok(bare(Code::NOT_ACCEPTABLE, wanted.offset));
    }
    if etag_names(asking.options, held.version) {
        let tag = Tag::new(&held.version.to_be_bytes());
        return Ok(Response {
            tag,
            ..bare(Code::VALID, wanted.offset)
        });
    }
    if wanted.offset > 0 && wanted.offset as usize >= held.body.len() {
        return Ok(bare(Code::BAD_REQUEST, wanted.offset));
    }
    shared_content(held, wanted)
}

// A POST.
fn serve_post<A: Allocator + Copy, S: Store<A>>(
    store: &mut S,
    now: Moment,
    asking: &Asking<'_, A>,
) -> Result<Response<'static, A>, AllocError>
    ensures served { IfOk result (λ r. ServesMethod Method.Post (S.content store.old) now.0
        (question_of asking.now) (reply_of r) (S.content store.new)) }
    ensures fits { IfOk result (λ r. Fits (reply_of r)) }
    ensures quiet { IsQuietBy Method.Post (S.content store.old) now.0 (question_of asking.now) → IsOk result }
    ensures err { OnErr result (store.new ≡ store.old) }
{
    match store.append(now, asking.path, asking.body) {
        Ok(Some(_)) => Ok(bare(Code::CHANGED, 0)),
        Ok(None) => Ok(bare(Code::NOT_FOUND, 0)),
        Err(why) => Ok(bare(refusal_code(why)?, 0)),
    }
}

// A PUT.
fn serve_put<A: Allocator + Copy, S: Store<A>>(
    store: &mut S,
    now: Moment,
    asking: &Asking<'_, A>,
) -> Result<Response<'static, A>, AllocError>
    ensures served { IfOk result (λ r. ServesMethod Method.Put (S.content store.old) now.0
        (question_of asking.now) (reply_of r) (S.content store.new)) }
    ensures fits { IfOk result (λ r. Fits (reply_of r)) }
    ensures quiet { IsQuietBy Method.Put (S.content store.old) now.0 (question_of asking.now) → IsOk result }
    ensures err { OnErr result (store.new ≡ store.old) }
{
    let was_there = store.get(asking.path).is_some();
    let format = format_of(asking.options);
    match store.put(now, asking.path, format, asking.body) {
        Ok(_) => Ok(bare(
            if was_there {
                Code::CHANGED
            } else {
                Code::CREATED
            },
            0,
        )),
        Err(why) => Ok(bare(refusal_code(why)?, 0)),
    }
}

// A DELETE.
fn serve_delete<A: Allocator + Copy, S: Store<A>>(
    store: &mut S,
    now: Moment,
    asking: &Asking<'_, A>,
) -> Result<Response<'static, A>, AllocError>
    ensures served { IfOk result (λ r. ServesMethod Method.Delete (S.content store.old) now.0
        (question_of asking.now) (reply_of r) (S.content store.new)) }
    ensures fits { IfOk result (λ r. Fits (reply_of r)) }
    ensures quiet { IsOk result }
{
    match store.delete(now, asking.path) {
        Ok(_) => Ok(bare(Code::DELETED, 0)),
        Err(why) => Ok(bare(refusal_code(why)?, 0)),
    }
}

/// Serves a request: its preconditions (RFC 7252, section 5.10.8), and then its method (section
/// 5.8). The response fits one message: NUM of its Block2 has 20 bits, its payload at most 1,024
/// bytes. After an `Err` the store is as before.
#[inline(always)]
pub fn serve<A: Allocator + Copy, S: Store<A>>(
    store: &mut S,
    now: Moment,
    asking: &Asking<'_, A>,
) -> Result<Response<'static, A>, AllocError>
    // The response, and what the store holds then, are those of the table of methods (RFC 7252, section 5.8).
    ensures served { IfOk result (λ r. Serves (S.content store.old) now.0
        (question_of asking.now) (reply_of r) (S.content store.new)) }
    // The response has a code of a response, short values and at most a block of payload.
    ensures fits { IfOk result (λ r. Fits (reply_of r)) }
    // A request that is refused memory leaves the store as it was.
    ensures err { OnErr result (store.new ≡ store.old) }
    // A GET leaves the store as it is, and so does a 4.12. What else changes nothing lets the moment count.
    ensures get { asking.now.method ≡ Method.Get → store.new ≡ store.old }
    // A request whose precondition fails leaves the store as it was (RFC 7252, section 5.10.8).
    ensures failed { precondition_fails ((S.content store.old).holds asking.now.path.now)
        (options_of asking.now.options.now)
        ≡ true → store.new ≡ store.old }
    // What is quiet takes no memory.
    ensures quiet { IsQuiet (S.content store.old) now.0 (question_of asking.now) → IsOk result }
{
    if precondition_fails(store.get(asking.path), asking.options) {
        let offset = match asking.method {
            Method::Get => wanted_block(asking.options, asking.szx).offset,
            Method::Post | Method::Put | Method::Delete => 0,
        };
        return Ok(bare(Code::PRECONDITION_FAILED, offset));
    }
    match asking.method {
        Method::Get => serve_get(store, asking),
        Method::Post => serve_post(store, now, asking),
        Method::Put => serve_put(store, now, asking),
        Method::Delete => serve_delete(store, now, asking),
    }
}
