//! Block sizes and their exponents (RFC 7959, section 2.2).
ghost use Rattle.std.specs.Prelude.{◌≡◌, ◌+◌, ◌^◌, ◌≤◌};
ghost use Rattle.std.specs.Option.{SomeIff};

use std::marker::Model;

/// The greatest size exponent (RFC 7959, section 2.2).
pub const MAX_SZX: u8 = 6;
/// The value of the field SZX that is reserved, and is that of no block (RFC 7959, section 2.2).
pub const RESERVED_SZX: u8 = 7;
/// The size of a block at size exponent 0, in bytes (RFC 7959, section 2.2).
pub const MIN_BLOCK_SIZE: usize = 16;

const _: () = prove!(MAX_SZX == 6 && RESERVED_SZX == 7 && MIN_BLOCK_SIZE == 16);

/// The size of a block as an exponent, 0 to 6 for 16 to 1,024 bytes (RFC 7959, section 2.2).
#[derive(Clone, Copy, Debug, PartialEq, Eq, PartialOrd, Ord, Hash)]
pub struct Szx {
    exponent: u8,
}

impl Model for Szx {
    ghost use Rattle.std.specs.Prelude.{ℕ, ◌≤◌};
    ghost use Rattle.coap_types.specs.declared.szx.TheConstants.{MAX_SZX};

    ghost Value = { ℕ };

    ghost view = { λ s. s.exponent };

    ghost invariant = { λ s. s.exponent ≤ MAX_SZX };

    ghost inverse = { λ n. record { exponent = n } };
}

impl Szx {
    /// This size exponent, where it is not the reserved 7 or more.
    pub fn new(n: u8) -> Option<Szx>
        // A size exponent is made exactly of 0 to 6 (RFC 7959, section 2.2).
        ensures { SomeIff result (n ≤ MAX_SZX) n }
    {
        if n <= MAX_SZX {
            Some(Szx { exponent: n })
        } else {
            None
        }
    }

    /// The size exponent.
    pub fn get(self) -> u8
        // The size exponent is the one that was given.
        ensures exponent { result ≡ self }
        // A size exponent is at most 6 (RFC 7959, section 2.2).
        ensures few { result ≤ MAX_SZX }
    {
        self.exponent
    }

    /// The size of a block, in bytes.
    pub fn size(self) -> usize
        // The size of a block is 2 to the power of SZX + 4 (RFC 7959, section 2.2).
        ensures size { result ≡ 2 ^ (self + 4) }
        // A block size is at least 16 bytes.
        ensures least { MIN_BLOCK_SIZE ≤ result }
        // A block size is at most 1,024 bytes.
        ensures most { result ≤ 1024 }
    {
        match self.get() {
            0 => MIN_BLOCK_SIZE,
            1 => 2 * MIN_BLOCK_SIZE,
            2 => 4 * MIN_BLOCK_SIZE,
            3 => 8 * MIN_BLOCK_SIZE,
            4 => 16 * MIN_BLOCK_SIZE,
            5 => 32 * MIN_BLOCK_SIZE,
            _ => 64 * MIN_BLOCK_SIZE,
        }
    }
}
