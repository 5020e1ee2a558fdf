//! The sizes of blocks and bodies that are chosen.
ghost use Rattle.std.specs.Prelude.{◌≡◌, ◌≤◌, IfOk, IfErr};
ghost use Rattle.std.specs.Option.{SomeIff};
ghost use Rattle.knifesilver_exchange.specs.Chosen.{AreChosen, SaysWrong, exponent_of};
ghost use Rattle.knifesilver_exchange.specs.Fresh.{chosen};

use crate::answers::{BAD_BLOCK_SIZE, BAD_BODY_LIMIT};
use coap_types::{BodyLimit, DEFAULT_BODY_LIMIT, MAX_BODY_LIMIT, MAX_SZX, Szx};

// How many bytes a block has at most, where no other number is chosen (RFC 7959, section 2.2).
const USUAL_BLOCK: u32 = 1_024;

const _: () = prove!(USUAL_BLOCK == 1_024 && MAX_SZX == 6);

/// The blocks of so many bytes.
pub(crate) fn szx_of(block_size: u32) -> Option<Szx>
    ensures { result ≡ exponent_of block_size }
{
    let szx = match block_size {
        16 => 0,
        32 => 1,
        64 => 2,
        128 => 3,
        256 => 4,
        512 => 5,
        0 | USUAL_BLOCK => MAX_SZX,
        _ => return None,
    };
    Szx::new(szx)
}

// The limit of so many bytes.
fn limit_of(body_limit: u32) -> Option<BodyLimit>
    ensures { SomeIff result (body_limit ≤ MAX_BODY_LIMIT) (chosen DEFAULT_BODY_LIMIT body_limit) }
{
    if body_limit == 0 {
        Some(BodyLimit::default())
    } else {
        BodyLimit::new(body_limit as usize)
    }
}

/// The sizes that are chosen.
#[derive(Drop)]
pub struct Sizes {
    /// The size of the blocks.
    pub szx: Szx,
    /// The limit of the bodies.
    pub limit: BodyLimit,
}

/// The sizes that are chosen, or what is wrong with them.
pub(crate) fn sizes_of(block_size: u32, body_limit: u32) -> Result<Sizes, i32>
    ensures sizes { IfOk result (λ s. AreChosen block_size body_limit s.szx s.limit) }
    ensures why { IfErr result (SaysWrong block_size body_limit) }
{
    let Some(szx) = szx_of(block_size) else {
        return Err(BAD_BLOCK_SIZE);
    };
    let Some(limit) = limit_of(body_limit) else {
        return Err(BAD_BODY_LIMIT);
    };
    Ok(Sizes { szx, limit })
}
