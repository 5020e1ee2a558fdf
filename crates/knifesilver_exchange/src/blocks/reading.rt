//! The Block options, the entity-tag and the key of a message, and the bytes that a block asks for.
ghost use Rattle.std.specs.Prelude.{◌≡◌, ◌<◌, ◌⊎◌, pos, length, IfOk, OnErr, IfSome, IfNone};
ghost use Rattle.coap_types.specs.Piece.{Begins};
ghost use Rattle.knifesilver_exchange.specs.Answers.{IsRefused};
ghost use Rattle.knifesilver_exchange.specs.Blocks.{AreBlock, HasBadBlock, HasNoBlock, IsBadBlock, IsBlockIn};
ghost use Rattle.knifesilver_exchange.specs.Blocks.{IsSlice, SaysBlock, follows};
ghost use Rattle.knifesilver_exchange.specs.Blocks.{tag_in, tag_of};

use crate::answers::{BAD_ARGUMENT, DONE, NOTHING, SMALL_ROOM};
use crate::crossing::{KsBlock, copy_out};
use coap_block::slice;
use coap_codec::{View, decode};
use coap_options::value_of;
use coap_types::option_number::ETAG;
use coap_types::{Block, Szx, Tag};

/// What C is told of a block.
pub(crate) fn told_block(block: Block) -> KsBlock
    ensures { AreBlock result block }
{
    KsBlock {
        num: block.num,
        more: block.more,
        szx: block.szx.get(),
    }
}

/// The same block again.
pub(crate) fn copy_of(block: &Block) -> Block
    ensures { result ≡ block.now }
{
    Block {
        num: block.num,
        more: block.more,
        szx: block.szx,
    }
}

/// A value that is no block.
#[derive(Drop)]
pub struct BadBlock;

/// The block of the first option of this number, if there is one.
pub(crate) fn block_at(message: &View<'_>, number: u16) -> Result<Option<Block>, BadBlock>
    ensures ok { IfOk result (λ block. SaysBlock number message.now block) }
    ensures err { OnErr result (IsBadBlock number message.now) }
{
    match value_of(message, number) {
        None => Ok(None),
        Some(value) => match Block::read(value) {
            Some(block) => Ok(Some(block)),
            None => Err(BadBlock),
        },
    }
}

// The entity-tag that a value is.
fn tag_of(value: &[u8]) -> Option<Tag>
    ensures { result ≡ tag_of value.now }
{
    Tag::new(value)
}

/// The entity-tag of a message, if its first ETag is one.
pub(crate) fn tag_in(message: &View<'_>) -> Option<Tag>
    ensures { result ≡ tag_in message.now }
{
    match value_of(message, ETAG) {
        None => None,
        Some(value) => tag_of(value),
    }
}

/// Tells the block that the first option of this number says: 1, or 0 where there is none.
#[unsafe(no_mangle)]
pub extern "C" fn ks_block_in(datagram: &[u8], number: u16, block: &mut KsBlock) -> i32
    // The block that is told is that of the first option of this number.
    ensures told { result ≡ pos 1 → IsBlockIn datagram.now number block.new }
    // No block is told only where what the datagram spells has no option of this number.
    ensures nothing { result ≡ pos 0 → HasNoBlock datagram.now number }
    // To ask for a block is refused where the value of that option is no block, and for nothing else.
    ensures why { IsRefused result → (result ≡ BAD_ARGUMENT) × HasBadBlock datagram.now number }
{
    let Ok(view) = decode(datagram) else {
        return NOTHING;
    };
    match block_at(&view, number) {
        Ok(Some(found)) => {
            *block = told_block(found);
            DONE
        }
        Ok(None) => NOTHING,
        Err(_) => BAD_ARGUMENT,
    }
}

// The block that C tells, if its size exponent is that of one.
fn block_of(block: &KsBlock) -> Option<Block>
    ensures some { IfSome result (λ b. AreBlock block.now b) }
    ensures none { IfNone result (6 < block.now.szx) }
{
    let szx = Szx::new(block.szx)?;
    Some(Block {
        num: block.num,
        more: block.more,
        szx,
    })
}

// Whether more of a body of that length follows the block.
fn follows(len: usize, block: &Block) -> bool
    ensures { result ≡ follows len block.now }
{
    let size = block.szx.size();
    block.num as usize * size + size < len
}

/// Tells the bytes of a body that a block asks for: 1, or 0 where the block begins at or past the end.
#[unsafe(no_mangle)]
pub extern "C" fn ks_slice(
    body: &[u8],
    asked: &KsBlock,
    given: &mut KsBlock,
    room: &mut [u8],
    len: &mut usize,
) -> i32
    // The bytes that are told are the piece of the body at that block, and whether more follows.
    ensures told { result ≡ pos 1 → IsSlice body.now asked.now given.new room.new len.new }
    // No bytes are told only where the block begins at or past the end.
    ensures nothing { result ≡ pos 0 → Begins body.now asked.now.num asked.now.szx → ⊥ }
    // Where the room is too small for the bytes of a block, their length is told.
    ensures small { result ≡ SMALL_ROOM → length room.old < len.new }
    // To ask for the bytes of a block is refused for a size exponent of over 6 or a room that is too small, and for
    // nothing else.
    ensures why { IsRefused result → ((result ≡ BAD_ARGUMENT) × (6 < asked.now.szx)) ⊎ (result ≡ SMALL_ROOM) }
{
    let Some(block) = block_of(asked) else {
        return BAD_ARGUMENT;
    };
    let Some(part) = slice(body, copy_of(&block)) else {
        return NOTHING;
    };
    *len = part.len();
    if !copy_out(room, part) {
        return SMALL_ROOM;
    }
    *given = KsBlock {
        num: asked.num,
        more: follows(body.len(), &block),
        szx: asked.szx,
    };
    DONE
}
