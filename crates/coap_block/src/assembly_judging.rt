//! What a block means to an assembly: whether it begins, continues or completes an upload (RFC 7959, section 2.5).
ghost use Rattle.std.specs.Prelude.{◌≡◌};
ghost use Rattle.coap_block.specs.AssemblyStep.{answered_szx, fills, goes_on, ruling};

use crate::assembly_step::AssemblyRefusal;
use crate::block_verdict::BlockVerdict;
use crate::fetch_judging::smaller;
use coap_types::{Block, BodyLimit, Szx};

/// The most uploads of which a server keeps a partial body (profile: RFC 7959, section 7, asks for a
/// bound).
pub const MAX_PARTIALS: usize = 16;

const _: () = prove!(MAX_PARTIALS == 16);

// A block with more behind it has its full size, the last one is no longer.
fn fills(more: bool, szx: Szx, len: usize) -> bool
    ensures { result ≡ fills more szx len }
{
    if more {
        len == szx.size()
    } else {
        len <= szx.size()
    }
}

// Block 0 needs no partial body, another block begins where it ends.
fn goes_on(reached: Option<usize>, num: u32, szx: Szx) -> bool
    ensures { result ≡ goes_on reached num szx }
{
    num == 0 || reached == Some(num as usize * szx.size())
}

// The size that is answered: at block 0 the smaller of both, then that of the block.
fn answered_szx(szx: Szx, block: Block) -> Szx
    ensures { result ≡ answered_szx szx block }
{
    if block.num == 0 {
        return smaller(block.szx, szx);
    }
    block.szx
}

/// What a block means, by the tests in their order.
pub(crate) fn judge(
    szx: Szx,
    limit: BodyLimit,
    reached: Option<usize>,
    others: usize,
    block: Block,
    len: usize,
) -> BlockVerdict
    ensures { result ≡ ruling (record { szx = szx; limit = limit }) reached others block len }
{
    if !fills(block.more, block.szx, len) {
        return BlockVerdict::Refuse(AssemblyRefusal::BadRequest);
    }
    if !goes_on(reached, block.num, block.szx) {
        return BlockVerdict::Refuse(AssemblyRefusal::EntityIncomplete);
    }
    let offset = block.num as usize * block.szx.size();
    if offset + len > limit.get() {
        return BlockVerdict::Refuse(AssemblyRefusal::EntityTooLarge);
    }
    if block.more && block.num == 0 && others >= MAX_PARTIALS {
        return BlockVerdict::Refuse(AssemblyRefusal::Unavailable);
    }
    if block.more {
        BlockVerdict::Join(answered_szx(szx, block))
    } else {
        BlockVerdict::Done
    }
}
