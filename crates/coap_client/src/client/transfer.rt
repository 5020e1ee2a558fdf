//! How far the transfer of a call's body is (RFC 7959).
ghost use Rattle.std.specs.Prelude.{◌≡◌, ◌≤◌, length};
ghost use Rattle.coap_types.specs.declared.szx.TheConstants.{MAX_SZX as max_szx};
ghost use Rattle.coap_types.specs.Piece.{part_of, size_of};
ghost use Rattle.coap_types.specs.OptionValues.{option_with};
ghost use Rattle.coap_client.specs.Requests.{block_option, block2_option, payload_of};
ghost use Rattle.coap_client.specs.Object.CallShown.{IsFew, block_of, shown_transfer};

use crate::client::upload::is_longer;
use coap_block::{Fetch, Upload};
use coap_types::UintBytes;
use coap_types::option_number::{BLOCK1, BLOCK2};
use std::alloc::{Allocator, Global};

/// How far a call is.
#[derive(Drop)]
#[derive_where(Debug)]
pub enum Transfer<A: Allocator = Global> {
    /// A GET: what was gathered (RFC 7959, section 2.4).
    Fetches(Fetch<A>),
    /// A POST or a PUT: its body, and the block to send (RFC 7959, section 2.5).
    Uploads(Upload<A>),
    /// A DELETE: one message.
    Single,
}

/// The Block option of the next request: its number, and its value where there is one.
pub fn block_of<A: Allocator + Copy>(transfer: &Transfer<A>) -> (u16, Option<UintBytes>)
    ensures option { option_with result.0 result.1 ≡ block_option (shown_transfer transfer.now) }
    ensures number { result.0 ≡ block_of (shown_transfer transfer.now) }
    ensures few { IsFew result.1 }
{
    match transfer {
        Transfer::Fetches(fetch) => (BLOCK2, block2_of(fetch)),
        Transfer::Uploads(upload) if is_longer(upload) => (BLOCK1, upload.next().0.write()),
        Transfer::Uploads(_) | Transfer::Single => (BLOCK1, None),
    }
}

/// The value of the Block2 that asks for the next block, where there is one.
pub fn block2_of<A: Allocator + Copy>(fetch: &Fetch<A>) -> Option<UintBytes>
    ensures option { option_with BLOCK2 result ≡ block2_option fetch.now.state.asked }
    ensures few { IsFew result }
{
    fetch.asked()?.write()
}

/// The payload of the next request.
pub fn payload_of<A: Allocator + Copy>(transfer: &Transfer<A>) -> &[u8]
    ensures payload { result.now ≡ payload_of (shown_transfer transfer.now) }
    ensures few { length result.now ≤ size_of max_szx }
{
    match transfer {
        Transfer::Uploads(upload) => part_to_send(upload),
        Transfer::Fetches(_) | Transfer::Single => &[],
    }
}

// The bytes of the block to send.
#[tactic(auto, using(crate::proofs::Facts::Calls::AskableRequests::piece_short))]
fn part_to_send<A: Allocator + Copy>(upload: &Upload<A>) -> &[u8]
    ensures part { result.now ≡ part_of upload.now.state.body upload.now.state.num upload.now.state.szx }
    ensures few { length result.now ≤ size_of max_szx }
{
    let (block, part) = upload.next();
    let _most = block.szx.size();
    part
}
