//! A body that is sent in blocks (RFC 7959, section 2.5).
ghost use Rattle.std.specs.Prelude.{◌≡◌, ◌≢◌, ◌<◌, ◌⊎◌, pos, length, None, Some};
ghost use Rattle.knifesilver_exchange.specs.Answers.{IsAnswered, IsRefused};
ghost use Rattle.knifesilver_exchange.specs.BlocksHeld.{HoldsUpload, HoldsUploadIn, IsUploadIn, UploadGoes};
ghost use Rattle.knifesilver_exchange.specs.Chosen.{exponent_of};
ghost use Rattle.knifesilver_exchange.specs.Moves.{IsAccepted, IsAcceptedBy, IsFreshUpload, IsNextBlock};

use crate::answers::{
    BAD_ARGUMENT, BAD_BLOCK_SIZE, DONE, NO_MEMORY, NOT_LIVE, NOTHING, SMALL_ROOM, told,
};
use crate::blocks::choosing::szx_of;
use crate::blocks::reading::{block_at, told_block};
use crate::crossing::{KsBlock, copy_out};
use crate::handle::KsHandle;
use crate::held::Held;
use bytes::Bytes;
use coap_block::Upload;
use coap_codec::decode;
use coap_types::option_number::BLOCK1;
use coap_types::{Block, Code};
use std::alloc::Global;

/// Makes an upload of a copy of the body; what the handle held is freed.
#[unsafe(no_mangle)]
pub extern "C" fn ks_upload_new(
    alloc: Global,
    handle: &mut KsHandle,
    body: &[u8],
    block_size: u32,
) -> i32
    // An upload that is made has sent nothing of that body, in blocks of that size.
    ensures made { IsAnswered result → (result ≡ pos 0) × IsFreshUpload body.now block_size handle.new.held }
    // Where no upload is made, the handle holds what it held.
    ensures kept { IsRefused result → handle.new.held ≡ handle.old.held }
    // No upload is made where no block has that size, or for want of memory.
    ensures why { IsRefused result
        → ((result ≡ BAD_BLOCK_SIZE) × (exponent_of block_size ≡ None)) ⊎ (result ≡ NO_MEMORY) }
{
    let Some(szx) = szx_of(block_size) else {
        return BAD_BLOCK_SIZE;
    };
    let Ok(copy) = Bytes::copy_from_slice(alloc, body) else {
        return NO_MEMORY;
    };
    match Box::new(alloc, Held::Upload(Upload::new(copy, szx))) {
        Ok(held) => {
            let _before = handle.take(alloc);
            handle.put(held);
            NOTHING
        }
        Err(_) => NO_MEMORY,
    }
}

/// Frees the upload; the handle is empty then, and may be freed again.
#[unsafe(no_mangle)]
pub extern "C" fn ks_upload_free(alloc: Global, handle: &mut KsHandle)
    // The handle of an upload that is freed holds nothing.
    ensures { handle.new.held ≡ None }
{
    let _was = handle.take(alloc);
}

// Tells the block to send.
fn next(held: &Held, block: &mut KsBlock, room: &mut [u8], len: &mut usize) -> i32
    ensures told { IsAnswered result → IsUploadIn (IsNextBlock block.new room.new len.new) held.now }
    ensures small { result ≡ SMALL_ROOM → length room.old < len.new }
    ensures live { HoldsUpload (Some held.now) → result ≢ NOT_LIVE }
    ensures why { IsRefused result → (result ≡ SMALL_ROOM) ⊎ (result ≡ NOT_LIVE) }
{
    match held {
        Held::Upload(upload) => {
            let (sent, bytes) = upload.next();
            *block = told_block(sent);
            *len = bytes.len();
            if copy_out(room, bytes) {
                DONE
            } else {
                SMALL_ROOM
            }
        }
        _ => NOT_LIVE,
    }
}

/// Tells the block that is to be sent, and its bytes.
#[unsafe(no_mangle)]
pub extern "C" fn ks_upload_next(
    alloc: Global,
    handle: &mut KsHandle,
    block: &mut KsBlock,
    room: &mut [u8],
    len: &mut usize,
) -> i32
    // The block that is told is the one to be sent, and the bytes are the piece of the body at it.
    ensures told { IsAnswered result → HoldsUploadIn (IsNextBlock block.new room.new len.new) handle.old.held }
    // Where the room is too small for the bytes to send, their length is told.
    ensures small { result ≡ SMALL_ROOM → length room.old < len.new }
    // To ask for the block to send leaves the very upload in the handle.
    ensures kept { handle.new.held ≡ handle.old.held }
    // To ask for the block to send is refused for a room that is too small or for want of an upload in the handle, and
    // for nothing else.
    ensures why { IsRefused result → (result ≡ SMALL_ROOM) ⊎ (result ≡ NOT_LIVE) }
    // `next` never says of a handle with an upload that it holds none.
    ensures live { HoldsUpload handle.old.held → result ≢ NOT_LIVE }
{
    let Some(held) = handle.take(alloc) else {
        return NOT_LIVE;
    };
    let answer = next(held.as_ref(), block, room, len);
    handle.put(held);
    answer
}

// Takes the answer of this code and with this Block1.
fn accepted(held: &mut Held, code: Code, block: Option<Block>) -> i32
    ensures led { IsAnswered result → UploadGoes (IsAccepted code.0 block result) (Some held.old) (Some held.new) }
    ensures kept { IsRefused result → held.new ≡ held.old }
    ensures live { HoldsUpload (Some held.old) → result ≢ NOT_LIVE }
    ensures why { IsRefused result → result ≡ NOT_LIVE }
{
    match held {
        Held::Upload(upload) => match block {
            Some(block) if code == Code::CONTINUE => told(upload.accepted(block)),
            _ => NOTHING,
        },
        _ => NOT_LIVE,
    }
}

/// Takes the answer to the block that was sent: 1 where the next one may be sent, and else 0.
#[unsafe(no_mangle)]
pub extern "C" fn ks_upload_accepted(alloc: Global, handle: &mut KsHandle, datagram: &[u8]) -> i32
    // An answer lets the next block be sent exactly where it is a 2.31 whose Block1 fits; else the upload is where it
    // was.
    ensures led { IsAnswered result → UploadGoes (IsAcceptedBy datagram.now result) handle.old.held handle.new.held }
    // An answer that is refused leaves the very upload in the handle.
    ensures kept { IsRefused result → handle.new.held ≡ handle.old.held }
    // An answer is refused for a message or a Block1 that is none or for want of an upload in the handle, and for
    // nothing else.
    ensures why { IsRefused result → (result ≡ BAD_ARGUMENT) ⊎ (result ≡ NOT_LIVE) }
    // `accepted` never says of a handle with an upload that it holds none.
    ensures live { HoldsUpload handle.old.held → result ≢ NOT_LIVE }
{
    let Ok(view) = decode(datagram) else {
        return BAD_ARGUMENT;
    };
    let Ok(block) = block_at(&view, BLOCK1) else {
        return BAD_ARGUMENT;
    };
    let Some(mut held) = handle.take(alloc) else {
        return NOT_LIVE;
    };
    let answer = accepted(held.as_mut(), view.code(), block);
    handle.put(held);
    answer
}
