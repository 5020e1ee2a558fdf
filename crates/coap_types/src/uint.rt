//! Options that are whole numbers (RFC 7252, section 3.2).
ghost use Rattle.std.specs.Prelude.{◌≡◌, ◌≤◌, ◌<◌, ◌^◌, ◌∷◌, List, ℕ, Some, length};
ghost use Rattle.coap_types.specs.Bytes.{AreBytes};
ghost use Rattle.coap_types.specs.Uint.{IsSpelling, LeadsWithNoZero, number_of, uint, uint_value};

use arrayvec::ArrayVec;
use std::marker::Model;

/// The most bytes that are read as a number: no uint option has more (RFC 7252, section 5.10, table
/// 4; RFC 7959, sections 2.1 and 4).
pub const MAX_UINT_LEN: usize = 4;

const _: () = prove!(MAX_UINT_LEN == 4);

/// The bytes that spell a number in the uint format, at most 4 (RFC 7252, section 3.2).
#[derive(Debug, Drop)]
pub struct UintBytes {
    bytes: ArrayVec<u8, MAX_UINT_LEN>,
}

impl Model for UintBytes {
    ghost use Rattle.std.specs.Prelude.{ℕ, List, ◌≤◌, length};
    ghost use Rattle.coap_types.specs.declared.uint.TheConstants.{MAX_UINT_LEN};
    ghost use Rattle.coap_types.specs.Bytes.{AreBytes};
    ghost use Rattle.coap_types.specs.Uint.{LeadsWithNoZero};

    ghost Value = { List ℕ };

    ghost view = { λ u. u.bytes.items };

    ghost invariant = { λ u. (length u.bytes.items ≤ MAX_UINT_LEN) × LeadsWithNoZero u.bytes.items
        × AreBytes u.bytes.items };
}

impl UintBytes {
    /// The bytes.
    pub fn as_slice(&self) -> &[u8]
        // The bytes that are lent are those of the number.
        ensures bytes { result.now ≡ self.now }
        // A number in the uint format has at most four bytes here.
        ensures few { length self.now ≤ MAX_UINT_LEN }
        // No zero byte leads the number (RFC 7252, section 3.2).
        ensures no_zero { LeadsWithNoZero self.now }
        // Each byte of the number is below 256.
        ensures are_bytes { AreBytes self.now }
    {
        self.bytes.as_slice()
    }
}

/// The number that these bytes spell, in network byte order; None past 4 bytes. Zero bytes in front
/// are read, and no byte spells 0 (RFC 7252, section 3.2).
pub fn uint_of(bytes: &[u8]) -> Option<u32>
    // The number is that of the bytes in network order, zero bytes in front too, and None past four of them.
    ensures { result ≡ uint_value bytes.now }
{
    let all = match *bytes {
        [] => [0, 0, 0, 0],
        [a] => [0, 0, 0, a],
        [a, b] => [0, 0, a, b],
        [a, b, c] => [0, a, b, c],
        [a, b, c, d] => [a, b, c, d],
        _ => return None,
    };
    Some(u32::from_be_bytes(all))
}

/// The fewest bytes that spell this number, in network byte order; none for 0 (RFC 7252, section
/// 3.2).
pub fn uint_bytes(number: u32) -> UintBytes
    // A number is written in the uint format, in the fewest bytes, and 0 in none (RFC 7252, section 3.2).
    ensures bytes { result ≡ uint number }
    // What is written has at most four bytes.
    ensures few { length result ≤ MAX_UINT_LEN }
    // What is written spells the number, and no zero byte leads it.
    ensures spelling { IsSpelling result number }
    // A number that is written is read back as it was.
    ensures read_back { uint_value result ≡ Some number }
{
    let all = number.to_be_bytes();
    let zeros = match number {
        0 => 4,
        1..=0xff => 3,
        0x100..=0xffff => 2,
        0x1_0000..=0xff_ffff => 1,
        _ => 0,
    };
    let mut bytes = ArrayVec::new();
    let _fits = bytes.try_extend_from_slice(&all[zeros..]);
    UintBytes { bytes }
}

/// The laws of the uint format (RFC 7252, section 3.2): a zero byte in front changes nothing; a
/// number of 32 bits is spelt by bytes of which none leads with zero, at most 4, and read back from
/// them; no fewer bytes spell it; and a number has one such spelling.
pub fn uint_laws()
    // Zero bytes in front don't change the number that bytes spell.
    ensures leading_zero { (bytes : List ℕ) → number_of (0 ∷ bytes) ≡ number_of bytes }
    // The bytes of a number of 32 bits spell it.
    ensures spelling { (number : ℕ) → number < 2 ^ 32 → IsSpelling (uint number) number }
    // The bytes of a number are at most four.
    ensures few { (number : ℕ) → length (uint number) ≤ MAX_UINT_LEN }
    // The bytes of a number of 32 bits are read as that number.
    ensures read_back { (number : ℕ) → number < 2 ^ 32 → uint_value (uint number) ≡ Some number }
    // No bytes that are that number are fewer than its spelling.
    ensures fewest { (xs ys : List ℕ) (number : ℕ) → IsSpelling xs number → AreBytes ys
        → number_of ys ≡ number → length xs ≤ length ys }
    // A number has one spelling.
    ensures one_spelling { (xs ys : List ℕ) (number : ℕ) → IsSpelling xs number → IsSpelling ys number
        → xs ≡ ys }
{}
