//! The client's side of a Block1 transfer: which block is sent next (RFC 7959, section 2.5).
ghost use Rattle.std.specs.Prelude.{◌≡◌, ◌≤◌, ◌↔◌, false, true, None, Some, IsSome, IfSome};
ghost use Rattle.coap_types.specs.Piece.{Piece};
ghost use Rattle.coap_block.specs.UploadStep.{upload_start, block_to_send, at_place, continues, Continues, IsPlaceIn};
ghost use Rattle.coap_block.specs.UploadStep.{moved};

use crate::piece::slice;
use bytes::Bytes;
use coap_types::{Block, MAX_NUM, Szx};
use std::alloc::{Allocator, Global};
use std::marker::Model;

/// The number and the size of a block (RFC 7959, section 2.2).
#[derive(Clone, Copy, Debug, PartialEq, Eq)]
pub(crate) struct Place {
    num: u32,
    szx: Szx,
}

/// A Block1 transfer at the client (RFC 7959, section 2.5): it gives the blocks of a body in order,
/// each until it is accepted. A contract sees its state and what `undo` would give back.
#[derive(Drop)]
#[derive_where(Debug)]
pub struct Upload<A: Allocator = Global> {
    body: Bytes<A>,
    place: Place,
    before: Option<Place>,
}

impl<A: Allocator> Model for Upload<A> {
    ghost use Rattle.coap_block.specs.UploadStep.{UploadValue, at_place, before_at, IsPlaceIn, IsPlaceBefore};

    ghost Value = { UploadValue };

    ghost view = { λ u. record { state = at_place u.body u.place; before = before_at u.body u.before } };

    ghost invariant = { λ u. IsPlaceIn u.body u.place × IsPlaceBefore u.body u.before };
}

impl<A: Allocator + Copy> Upload<A> {
    /// An upload of that body, in blocks of at most that size.
    pub fn new(body: Bytes<A>, szx: Szx) -> Upload<A>
        // A `new` upload has sent nothing of its body, in blocks of that size.
        ensures state { result.state ≡ upload_start body szx }
        // A `new` upload has nothing to take back.
        ensures before { result.before ≡ None }
    {
        Upload {
            body,
            place: Place { num: 0, szx },
            before: None,
        }
    }

    /// The body, whole, where the upload is over.
    pub fn into_body(self) -> Bytes<A>
        // The body that is given back is that of the upload, whole.
        ensures { result ≡ self.state.body }
    {
        self.body
    }

    /// The block to send and its bytes (RFC 7959, section 2.5); the same until it is accepted.
    pub fn next(&self) -> (Block, &[u8])
        // The block that is to be sent is the next one (RFC 7959, section 2.5).
        ensures block { result.0 ≡ block_to_send self.now.state }
        // The bytes that are to be sent are the piece of the body at that block.
        ensures piece { Piece self.now.state.body result.0.num result.0.more result.0.szx result.1.now }
        // The NUM of the block that is to be sent can be written.
        ensures numbered { result.0.num ≤ MAX_NUM }
    {
        let body = self.body.as_slice();
        let part = slice(body, block_at(body, self.place)).unwrap_or(&[]);
        (block_at(body, self.place), part)
    }

    /// Takes the Block1 of a 2.31 (RFC 7959, section 2.5): whether the next block may be sent. False,
    /// and nothing changed, where the block to send has M 0 or the answer doesn't fit it: it has
    /// another number, M 0, another size (at block 0: a larger one), or the next block would have a
    /// number over `MAX_NUM`.
    pub fn accepted(&mut self, answer: Block) -> bool
        // A 2.31 is accepted exactly where it fits: its number, M 1, and its size, at block 0 also a smaller one.
        ensures fits { result ≡ continues self.old.state answer }
        // Where it is accepted, the next block is the one behind, in the size that was answered.
        ensures moved { result ≡ true → self.new.state ≡ moved self.old.state answer }
        // Where it is not accepted, nothing changes.
        ensures stays { result ≡ false → self.new.state ≡ self.old.state }
        // What it changes can be taken back.
        ensures before { self.new.before ≡ Some self.old.state }
    {
        let next = place_after(&self.body, self.place, answer);
        self.before = Some(self.place);
        match next {
            Some(place) => {
                self.place = place;
                true
            }
            None => false,
        }
    }

    /// Takes the last `accepted` back, so that the upload is as before it. There is to have been one,
    /// and no `undo` since.
    pub fn undo(&mut self)
        requires { IsSome self.old.before }
        // The last answer is taken back: the upload is as it was before it.
        ensures back { self.old.before ≡ Some self.new.state }
        // After that the upload has nothing to take back.
        ensures spent { self.new.before ≡ None }
    {
        if let Some(was) = self.before.take() {
            self.place = was;
        }
    }
}

// The block of a body that begins there.
fn block_at(body: &[u8], place: Place) -> Block
    ensures { result ≡ block_to_send (at_place body.now place) }
{
    let end = place.num as usize * place.szx.size() + place.szx.size();
    Block {
        num: place.num,
        more: end < body.len(),
        szx: place.szx,
    }
}

// Where the block after that one begins, if the answer to it lets it be sent.
fn place_after(body: &[u8], place: Place, answer: Block) -> Option<Place>
    ensures when { IsSome result ↔ Continues (at_place body.now place) answer }
    ensures next { IfSome result (λ next. at_place body.now next ≡ moved (at_place body.now place) answer) }
    ensures begins { IfSome result (λ next. IsPlaceIn body.now next) }
{
    let end = place.num as usize * place.szx.size() + place.szx.size();
    let same_size = answer.szx == place.szx
        || (place.num == 0 && answer.szx.get() < place.szx.get());
    if end >= body.len() || answer.num != place.num || !answer.more || !same_size {
        return None;
    }
    let num = end / answer.szx.size();
    if num > MAX_NUM as usize {
        return None;
    }
    Some(Place {
        num: num as u32,
        szx: answer.szx,
    })
}
