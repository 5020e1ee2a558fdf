//! Bodies that come in blocks, at a server (RFC 7959, section 2.5).
ghost use Rattle.std.specs.Prelude.{◌≡◌, ◌≢◌, ◌<◌, ◌⊎◌, pos, length, None, Some, IfErr, IfOk};
ghost use Rattle.coap_types.specs.RequestPath.{path_of, path_refusal};
ghost use Rattle.coap_block.specs.AssemblyKept.{key_of};
ghost use Rattle.knifesilver_exchange.specs.Answers.{IsAnswered, IsRefused, IsUsual};
ghost use Rattle.knifesilver_exchange.specs.BlocksHeld.{AssemblyGoes, HoldsAssembly, HoldsAssemblyIn, IsAssemblyIn};
ghost use Rattle.knifesilver_exchange.specs.Chosen.{SaysWrong};
ghost use Rattle.knifesilver_exchange.specs.Moves.{HasBadPath, IsBody, IsFreshAssembly, IsTake, TakeAnswers, Takes};

use crate::answers::{BAD_ARGUMENT, BAD_PATH, DONE, NO_MEMORY, NOT_LIVE, NOTHING, SMALL_ROOM};
use crate::blocks::choosing::sizes_of;
use crate::blocks::giving::give_body;
use crate::blocks::reading::{block_at, copy_of, told_block};
use crate::crossing::{KsAddress, KsBlock, endpoint};
use crate::handle::KsHandle;
use crate::held::{Held, OurAssembly};
use crate::numbers::assembly_number;
use bytes::Bytes;
use coap_block::{Assembly, Took, UploadKey};
use coap_codec::{View, decode};
use coap_options::options_in;
use coap_types::option_number::BLOCK1;
use coap_types::{Block, Method, Moment, Path, PathRefusal};
use std::alloc::Global;

/// Makes an assembly that has nothing yet; what the handle held is freed.
#[unsafe(no_mangle)]
pub extern "C" fn ks_assembly_new(
    alloc: Global,
    handle: &mut KsHandle,
    block_size: u32,
    body_limit: u32,
) -> i32
    // An assembly that is made has no partial body, and has its sizes.
    ensures made { IsAnswered result → (result ≡ pos 0) × IsFreshAssembly block_size body_limit handle.new.held }
    // Where no assembly is made, the handle holds what it held.
    ensures kept { IsRefused result → handle.new.held ≡ handle.old.held }
    // No assembly is made where a size is none, or for want of memory.
    ensures why { IsRefused result → SaysWrong block_size body_limit result ⊎ (result ≡ NO_MEMORY) }
{
    let sizes = match sizes_of(block_size, body_limit) {
        Ok(sizes) => sizes,
        Err(answer) => return answer,
    };
    let ours = OurAssembly {
        assembly: Assembly::with_limit(alloc, sizes.szx, sizes.limit),
        whole: None,
    };
    match Box::new(alloc, Held::Assembly(ours)) {
        Ok(held) => {
            let _before = handle.take(alloc);
            handle.put(held);
            NOTHING
        }
        Err(_) => NO_MEMORY,
    }
}

/// Frees the assembly; the handle is empty then, and may be freed again.
#[unsafe(no_mangle)]
pub extern "C" fn ks_assembly_free(alloc: Global, handle: &mut KsHandle)
    // The handle of an assembly that is freed holds nothing.
    ensures { handle.new.held ≡ None }
{
    let _was = handle.take(alloc);
}

// The path of a request, or why there is none.
fn path_in(alloc: Global, message: &View<'_>) -> Result<Path<Global>, i32>
    ensures path { IfOk result (λ path. path ≡ path_of message.now.options) }
    ensures why { IfErr result (λ answer. (answer ≡ NO_MEMORY)
        ⊎ ((answer ≡ BAD_PATH) × (path_refusal (path_of message.now.options) ≢ None))) }
{
    let Ok(options) = options_in(alloc, message) else {
        return Err(NO_MEMORY);
    };
    match Path::of_options(alloc, &options) {
        Ok(path) => Ok(path),
        Err(PathRefusal::Memory) => Err(NO_MEMORY),
        Err(PathRefusal::SegmentTooLong | PathRefusal::TooManySegments) => Err(BAD_PATH),
    }
}

// What C is told of a block, and the body that is whole with it.
fn told(
    took: Took<Global>,
    block: Block,
    answer: &mut KsBlock,
    body_len: &mut usize,
) -> (i32, Option<Bytes>)
    ensures { TakeAnswers result.0 answer.new body_len.new result.1 block took }
{
    match took {
        Took::More(next) => {
            *answer = told_block(next);
            (NOTHING, None)
        }
        Took::Whole(body) => {
            *answer = told_block(block);
            *body_len = body.len();
            (DONE, Some(body))
        }
        Took::Refused(why) => (assembly_number(why), None),
    }
}

// Takes a block.
fn take(
    held: &mut Held,
    now: u64,
    key: &UploadKey<Global>,
    block: Block,
    payload: &[u8],
    answer: &mut KsBlock,
    body_len: &mut usize,
) -> i32
    ensures led { IsAnswered result
        → AssemblyGoes (IsTake now (key_of key.now) block payload.now result answer.new body_len.new) (Some held.old)
        (Some held.new) }
    ensures kept { IsRefused result → held.new ≡ held.old }
    ensures live { HoldsAssembly (Some held.old) → result ≢ NOT_LIVE }
    ensures why { IsRefused result → IsUsual result }
{
    match held {
        Held::Assembly(ours) => match ours
            .assembly
            .take(Moment(now), key, copy_of(&block), payload)
        {
            Ok(took) => {
                let (number, whole) = told(took, block, answer, body_len);
                ours.whole = whole;
                number
            }
            Err(_) => NO_MEMORY,
        },
        _ => NOT_LIVE,
    }
}

/// Takes the block of a body that a request is: 0 and the Block1 to answer with a 2.31, 1 and how long the body is that
/// is whole.
#[unsafe(no_mangle)]
pub extern "C" fn ks_assembly_take(
    alloc: Global,
    handle: &mut KsHandle,
    now: u64,
    from: &KsAddress,
    datagram: &[u8],
    answer: &mut KsBlock,
    body_len: &mut usize,
) -> i32
    // A block that is answered makes just that call of the assembly, with its Block1, its payload, its sender, its path
    // and its method; and a body that is whole with it waits to be told.
    ensures led { IsAnswered result
        → AssemblyGoes (Takes now (record { ip = from.now.ip; port = from.now.port }) datagram.now result answer.new
        body_len.new) handle.old.held handle.new.held }
    // A block that is refused by a number below 0 leaves the very assembly in the handle.
    ensures kept { IsRefused result → handle.new.held ≡ handle.old.held }
    // A block's path is refused where it has over 16 segments, or one of over 255 bytes.
    ensures path { result ≡ BAD_PATH → HasBadPath datagram.now }
    // A block is refused by a number below 0 for a message that is no request with a Block1, for its path, for want of
    // memory or of an assembly in the handle, and for nothing else.
    ensures why { IsRefused result → (result ≡ BAD_ARGUMENT) ⊎ (result ≡ BAD_PATH) ⊎ IsUsual result }
    // `take` never says of a handle with an assembly that it holds none.
    ensures live { HoldsAssembly handle.old.held → result ≢ NOT_LIVE }
{
    let Ok(view) = decode(datagram) else {
        return BAD_ARGUMENT;
    };
    let Some(method) = Method::of(view.code()) else {
        return BAD_ARGUMENT;
    };
    let Ok(Some(block)) = block_at(&view, BLOCK1) else {
        return BAD_ARGUMENT;
    };
    let path = match path_in(alloc, &view) {
        Ok(path) => path,
        Err(number) => return number,
    };
    let key = UploadKey {
        from: endpoint(from),
        path,
        method,
    };
    let Some(mut held) = handle.take(alloc) else {
        return NOT_LIVE;
    };
    let number = take(
        held.as_mut(),
        now,
        &key,
        block,
        view.payload(),
        answer,
        body_len,
    );
    handle.put(held);
    number
}

// Tells the body that is whole.
fn body(held: &Held, room: &mut [u8], len: &mut usize) -> i32
    ensures told { result ≡ pos 1 → IsAssemblyIn (λ a. IsBody a.whole room.new len.new) held.now }
    ensures none { result ≡ pos 0 → IsAssemblyIn (λ a. a.whole ≡ None) held.now }
    ensures small { result ≡ SMALL_ROOM → length room.old < len.new }
    ensures live { HoldsAssembly (Some held.now) → result ≢ NOT_LIVE }
    ensures why { IsRefused result → (result ≡ SMALL_ROOM) ⊎ (result ≡ NOT_LIVE) }
{
    match held {
        Held::Assembly(ours) => give_body(&ours.whole, room, len),
        _ => NOT_LIVE,
    }
}

/// Tells the body that the last block made whole: 1, or 0 where it made none.
#[unsafe(no_mangle)]
pub extern "C" fn ks_assembly_body(
    alloc: Global,
    handle: &mut KsHandle,
    room: &mut [u8],
    len: &mut usize,
) -> i32
    // The body that is told is the one that the last block made whole.
    ensures told { result ≡ pos 1 → HoldsAssemblyIn (λ a. IsBody a.whole room.new len.new) handle.old.held }
    // No body is told only where the last block made none whole.
    ensures none { result ≡ pos 0 → HoldsAssemblyIn (λ a. a.whole ≡ None) handle.old.held }
    // Where the room is too small for a body that was joined, its length is told.
    ensures small { result ≡ SMALL_ROOM → length room.old < len.new }
    // To ask for the body leaves the very assembly in the handle.
    ensures kept { handle.new.held ≡ handle.old.held }
    // To ask for a body that was joined is refused for a room that is too small or for want of an assembly in the
    // handle, and for nothing else.
    ensures why { IsRefused result → (result ≡ SMALL_ROOM) ⊎ (result ≡ NOT_LIVE) }
    // `body` never says of a handle with an assembly that it holds none.
    ensures live { HoldsAssembly handle.old.held → result ≢ NOT_LIVE }
{
    let Some(held) = handle.take(alloc) else {
        return NOT_LIVE;
    };
    let answer = body(held.as_ref(), room, len);
    handle.put(held);
    answer
}
