//! The value of a Block option (RFC 7959, section 2.2).
ghost use Rattle.std.specs.Prelude.{◌≡◌, ◌≤◌, ◌↔◌, IsSome, IfSome, length};
ghost use Rattle.coap_types.specs.Uint.{IsSpelling, number_of, uint};
ghost use Rattle.coap_types.specs.BlockValue.{block_by, block_in, block_value, szx_field, BlockIsSaid, BlockReadsBack};
ghost use Rattle.coap_types.specs.BlockValue.{OneBlock};

use crate::szx::{MAX_SZX, Szx};
use crate::uint::{UintBytes, uint_bytes, uint_of};

/// The most bytes of the value of a Block option (RFC 7959, section 2.1).
pub const MAX_BLOCK_LEN: usize = 3;
/// The greatest block number: NUM has 20 bits (RFC 7959, section 2.2).
pub const MAX_NUM: u32 = (1 << 20) - 1;

const _: () = prove!(MAX_BLOCK_LEN == 3 && MAX_NUM == 1_048_575);

// How many values the field SZX has, in the lowest bits (RFC 7959, section 2.2).
const SZX_VALUES: u32 = 8;
// The bit M (RFC 7959, section 2.2).
const MORE_BIT: u32 = 8;
// What NUM is counted in, above M and SZX (RFC 7959, section 2.2).
const NUM_UNIT: u32 = 16;

/// The value of a Block1 or Block2 option (RFC 7959, section 2.2).
#[derive(Clone, Copy, Debug, PartialEq, Eq)]
pub struct Block {
    /// The number of the block, in blocks of its size (NUM). Any number is allowed here; one over
    /// `MAX_NUM` cannot be written.
    pub num: u32,
    /// Whether more blocks follow (M).
    pub more: bool,
    /// The size of the block (SZX).
    pub szx: Szx,
}

impl Block {
    /// The block that a number says; None where NUM is over `MAX_NUM`, and at the reserved SZX 7
    /// (RFC 7959, section 2.2).
    pub fn of(number: u32) -> Option<Block>
        // The block is that of the number's fields, NUM of 20 bits, M and an SZX but 7 (RFC 7959, section 2.2).
        ensures block { result ≡ block_by number }
        // The NUM of a block that a number says has at most 20 bits (RFC 7959, section 2.2).
        ensures num { IfSome result (λ block. block.num ≤ MAX_NUM) }
    {
        let num = number / NUM_UNIT;
        if num > MAX_NUM {
            return None;
        }
        let szx = Szx::new((number % SZX_VALUES) as u8)?;
        Some(Block {
            num,
            more: number / MORE_BIT % 2 == 1,
            szx,
        })
    }

    /// The block that an option's value says; None past 3 bytes, and at the reserved SZX 7
    /// (RFC 7959, section 2.2).
    pub fn read(bytes: &[u8]) -> Option<Block>
        // A value of at most three bytes is read as the block that its number says (RFC 7959, section 2.2).
        ensures block { result ≡ block_in bytes.now }
        // The number of the block that is read is that of the bytes.
        ensures value { IfSome result (λ block. block_value block ≡ number_of bytes.now) }
        // The NUM of a block that is read has at most 20 bits.
        ensures num { IfSome result (λ block. block.num ≤ MAX_NUM) }
        // The SZX of a block that is read is at most 6.
        ensures szx { IfSome result (λ block. block.szx ≤ MAX_SZX) }
        // A block is read exactly where there are at most three bytes and SZX is not 7 (RFC 7959, section 2.2).
        ensures when { IsSome result
            ↔ ((length bytes.now ≤ MAX_BLOCK_LEN) × (szx_field (number_of bytes.now) ≤ MAX_SZX)) }
    {
        if bytes.len() > MAX_BLOCK_LEN {
            return None;
        }
        Block::of(uint_of(bytes)?)
    }

    /// The value of the option, in the fewest bytes (RFC 7959, section 2.2); None where NUM is over
    /// `MAX_NUM`.
    pub fn write(self) -> Option<UintBytes>
        // A block is written as its number, NUM * 16 + M * 8 + SZX, in the uint format (RFC 7959, section 2.2).
        ensures bytes { IfSome result (λ bytes. bytes ≡ uint (block_value self)) }
        // What is written is the spelling of the block's number, which no zero byte leads.
        ensures spelling { IfSome result (λ bytes. IsSpelling bytes (block_value self)) }
        // A block is written in at most three bytes.
        ensures few { IfSome result (λ bytes. length bytes ≤ MAX_BLOCK_LEN) }
        // A block is written exactly where its NUM has at most 20 bits.
        ensures when { IsSome result ↔ (self.num ≤ MAX_NUM) }
    {
        if self.num > MAX_NUM {
            return None;
        }
        let more = if self.more { MORE_BIT } else { 0 };
        Some(uint_bytes(self.num * NUM_UNIT + more + u32::from(self.szx.get())))
    }
}

/// A value of a Block option is that of one block; what the block that is read says, and when one
/// is; and a block that is written is read back (RFC 7959, section 2.2).
pub fn block_law()
    // Two blocks of one number are one block.
    ensures one_block { OneBlock }
    // What a block value says, and when it says a block, is as the relation has it (RFC 7959, section 2.2).
    ensures says { BlockIsSaid }
    // A block that is written is read back as it was.
    ensures read_back { BlockReadsBack }
{}
