//! A body that is fetched in blocks (RFC 7959, section 2.4).
ghost use Rattle.std.specs.Prelude.{◌≡◌, ◌≢◌, ◌<◌, ◌⊎◌, pos, length, None, Some};
ghost use Rattle.knifesilver_exchange.specs.Answers.{IsAnswered, IsRefused, IsUsual};
ghost use Rattle.knifesilver_exchange.specs.BlocksHeld.{FetchGoes, HoldsFetch, HoldsFetchIn, IsFetchIn};
ghost use Rattle.knifesilver_exchange.specs.Chosen.{SaysWrong};
ghost use Rattle.knifesilver_exchange.specs.Moves.{AcceptAnswers, Accepts, IsAccept, IsBody, IsFreshFetch};

use crate::answers::{BAD_ARGUMENT, DONE, NO_MEMORY, NOT_LIVE, NOTHING, SMALL_ROOM};
use crate::blocks::choosing::sizes_of;
use crate::blocks::giving::give_body;
use crate::blocks::reading::{block_at, tag_in, told_block};
use crate::crossing::KsBlock;
use crate::handle::KsHandle;
use crate::held::{Held, OurFetch};
use crate::numbers::fetch_number;
use bytes::Bytes;
use coap_codec::decode;
use coap_parts::{PartFetch, Progress};
use coap_types::option_number::BLOCK2;
use coap_types::{Block, Tag};
use std::alloc::Global;

/// A body is joined of parts that had no entity-tag.
const JOINED: i32 = 3;
/// The body changed: it is to be asked for anew.
const AGAIN: i32 = 4;

/// Makes a fetch that has nothing yet; what the handle held is freed.
#[unsafe(no_mangle)]
pub extern "C" fn ks_fetch_new(
    alloc: Global,
    handle: &mut KsHandle,
    block_size: u32,
    body_limit: u32,
    untagged: bool,
) -> i32
    // A fetch that is made has nothing yet, and has its sizes and its leave to join parts without an entity-tag.
    ensures made { IsAnswered result
        → (result ≡ pos 0) × IsFreshFetch block_size body_limit untagged handle.new.held }
    // Where no fetch is made, the handle holds what it held.
    ensures kept { IsRefused result → handle.new.held ≡ handle.old.held }
    // No fetch is made where a size is none, or for want of memory.
    ensures why { IsRefused result → SaysWrong block_size body_limit result ⊎ (result ≡ NO_MEMORY) }
{
    let sizes = match sizes_of(block_size, body_limit) {
        Ok(sizes) => sizes,
        Err(answer) => return answer,
    };
    let fetch = PartFetch::new(alloc, sizes.szx, sizes.limit, untagged);
    match Box::new(alloc, Held::Fetch(OurFetch { fetch, whole: None })) {
        Ok(held) => {
            let _before = handle.take(alloc);
            handle.put(held);
            NOTHING
        }
        Err(_) => NO_MEMORY,
    }
}

/// Frees the fetch; the handle is empty then, and may be freed again.
#[unsafe(no_mangle)]
pub extern "C" fn ks_fetch_free(alloc: Global, handle: &mut KsHandle)
    // The handle of a fetch that is freed holds nothing.
    ensures { handle.new.held ≡ None }
{
    let _was = handle.take(alloc);
}

// What C is told of a part, and the body that is whole with it.
fn told(
    progress: Progress<Global>,
    next: &mut KsBlock,
    body_len: &mut usize,
) -> (i32, Option<Bytes>)
    ensures { AcceptAnswers result.0 next.new body_len.new result.1 progress }
{
    match progress {
        Progress::Next(block) => {
            *next = told_block(block);
            (NOTHING, None)
        }
        Progress::Whole(body) => {
            *body_len = body.len();
            (DONE, Some(body))
        }
        Progress::Joined(body) => {
            *body_len = body.len();
            (JOINED, Some(body))
        }
        Progress::Again => (AGAIN, None),
        Progress::Refused(why) => (fetch_number(why), None),
    }
}

// Takes a part.
fn accept(
    held: &mut Held,
    block: Option<Block>,
    tag: Option<Tag>,
    payload: &[u8],
    next: &mut KsBlock,
    body_len: &mut usize,
) -> i32
    ensures led { IsAnswered result → FetchGoes (IsAccept block tag payload.now result next.new body_len.new)
        (Some held.old) (Some held.new) }
    ensures kept { IsRefused result → held.new ≡ held.old }
    ensures live { HoldsFetch (Some held.old) → result ≢ NOT_LIVE }
    ensures why { IsRefused result → IsUsual result }
{
    match held {
        Held::Fetch(ours) => match ours.fetch.accept(block, tag, payload) {
            Ok(progress) => {
                let (answer, whole) = told(progress, next, body_len);
                ours.whole = whole;
                answer
            }
            Err(_) => NO_MEMORY,
        },
        _ => NOT_LIVE,
    }
}

/// Takes the part of a body that came in a message: 0 and the block to ask for, 1 or 3 and how long the body is that is
/// whole, 4 where it changed.
#[unsafe(no_mangle)]
pub extern "C" fn ks_fetch_accept(
    alloc: Global,
    handle: &mut KsHandle,
    datagram: &[u8],
    next: &mut KsBlock,
    body_len: &mut usize,
) -> i32
    // A part that is answered makes just that call of the fetch, with its Block2, its ETag and its payload; and a body
    // that is whole with it waits to be told.
    ensures led { IsAnswered result → FetchGoes (Accepts datagram.now result next.new body_len.new) handle.old.held
        handle.new.held }
    // A part that is refused by a number below 0 leaves the very fetch in the handle.
    ensures kept { IsRefused result → handle.new.held ≡ handle.old.held }
    // A part is refused by a number below 0 for a message or a Block2 that is none, for want of memory or of a fetch in
    // the handle, and for nothing else.
    ensures why { IsRefused result → (result ≡ BAD_ARGUMENT) ⊎ IsUsual result }
    // `accept` never says of a handle with a fetch that it holds none.
    ensures live { HoldsFetch handle.old.held → result ≢ NOT_LIVE }
{
    let Ok(view) = decode(datagram) else {
        return BAD_ARGUMENT;
    };
    let Ok(block) = block_at(&view, BLOCK2) else {
        return BAD_ARGUMENT;
    };
    let tag = tag_in(&view);
    let Some(mut held) = handle.take(alloc) else {
        return NOT_LIVE;
    };
    let answer = accept(held.as_mut(), block, tag, view.payload(), next, body_len);
    handle.put(held);
    answer
}

// Tells the body that is whole.
fn body(held: &Held, room: &mut [u8], len: &mut usize) -> i32
    ensures told { result ≡ pos 1 → IsFetchIn (λ f. IsBody f.whole room.new len.new) held.now }
    ensures none { result ≡ pos 0 → IsFetchIn (λ f. f.whole ≡ None) held.now }
    ensures small { result ≡ SMALL_ROOM → length room.old < len.new }
    ensures live { HoldsFetch (Some held.now) → result ≢ NOT_LIVE }
    ensures why { IsRefused result → (result ≡ SMALL_ROOM) ⊎ (result ≡ NOT_LIVE) }
{
    match held {
        Held::Fetch(ours) => give_body(&ours.whole, room, len),
        _ => NOT_LIVE,
    }
}

/// Tells the body that the last part made whole: 1, or 0 where it made none.
#[unsafe(no_mangle)]
pub extern "C" fn ks_fetch_body(
    alloc: Global,
    handle: &mut KsHandle,
    room: &mut [u8],
    len: &mut usize,
) -> i32
    // The body that is told is the one that the last part made whole.
    ensures told { result ≡ pos 1 → HoldsFetchIn (λ f. IsBody f.whole room.new len.new) handle.old.held }
    // No body is told only where the last part made none whole.
    ensures none { result ≡ pos 0 → HoldsFetchIn (λ f. f.whole ≡ None) handle.old.held }
    // Where the room is too small for a fetched body, its length is told.
    ensures small { result ≡ SMALL_ROOM → length room.old < len.new }
    // To ask for the body leaves the very fetch in the handle.
    ensures kept { handle.new.held ≡ handle.old.held }
    // To ask for a fetched body is refused for a room that is too small or for want of a fetch in the handle, and for
    // nothing else.
    ensures why { IsRefused result → (result ≡ SMALL_ROOM) ⊎ (result ≡ NOT_LIVE) }
    // `body` never says of a handle with a fetch that it holds none.
    ensures live { HoldsFetch handle.old.held → result ≢ NOT_LIVE }
{
    let Some(held) = handle.take(alloc) else {
        return NOT_LIVE;
    };
    let answer = body(held.as_ref(), room, len);
    handle.put(held);
    answer
}
