//! Numbers as bytes, the highest byte first.
ghost use Rattle.std.specs.Prelude.{◌≡◌, ◌<◌, ◌+◌, ◌++◌, ℕ, List, length, OnOk, IfSome, IfNone};
ghost use Rattle.coap_journal.specs.Numbers.{half, number, short};

use std::alloc::{AllocError, Allocator};

/// How many bytes a number of 64 bits takes.
pub(crate) const NUMBER_LEN: usize = 8;
/// How many a number of 32 bits takes.
pub(crate) const SHORT_LEN: usize = 4;
/// How many a number of 16 bits takes.
pub(crate) const HALF_LEN: usize = 2;

#[tactic(auto, unfolding(crate::specs::Numbers::number))]
/// Adds a number of 64 bits.
pub(crate) fn put_number<A: Allocator>(out: &mut Vec<u8, A>, n: u64) -> Result<(), AllocError>
    ensures { OnOk result (out.new.items ≡ out.old.items ++ number n) }
{
    out.extend_from_slice(&n.to_be_bytes())
}

#[tactic(auto, unfolding(crate::specs::Numbers::short))]
/// Adds a number of 32 bits.
pub(crate) fn put_short<A: Allocator>(out: &mut Vec<u8, A>, n: u32) -> Result<(), AllocError>
    ensures { OnOk result (out.new.items ≡ out.old.items ++ short n) }
{
    out.extend_from_slice(&n.to_be_bytes())
}

#[tactic(auto, unfolding(crate::specs::Numbers::half))]
/// Adds a number of 16 bits.
pub(crate) fn put_half<A: Allocator>(out: &mut Vec<u8, A>, n: u16) -> Result<(), AllocError>
    ensures { OnOk result (out.new.items ≡ out.old.items ++ half n) }
{
    out.extend_from_slice(&n.to_be_bytes())
}

/// A number of 64 bits, and what follows it.
pub(crate) fn read_number(bytes: &[u8]) -> Option<(u64, &[u8])>
    ensures some { IfSome result (λ p. bytes.now ≡ number p.0 ++ p.1.now) }
    ensures left { IfSome result (λ p. length bytes.now ≡ length p.1.now + NUMBER_LEN) }
    ensures none { IfNone result ((n : ℕ) (rest : List ℕ) → bytes.now ≡ number n ++ rest → ⊥) }
    ensures lacks { IfNone result (length bytes.now < NUMBER_LEN) }
{
    if bytes.len() < NUMBER_LEN {
        return None;
    }
    let (b, rest) = bytes.split_at(NUMBER_LEN);
    let n = u64::from_be_bytes([b[0], b[1], b[2], b[3], b[4], b[5], b[6], b[7]]);
    Some((n, rest))
}

/// A number of 32 bits, and what follows it.
pub(crate) fn read_short(bytes: &[u8]) -> Option<(u32, &[u8])>
    ensures some { IfSome result (λ p. bytes.now ≡ short p.0 ++ p.1.now) }
    ensures left { IfSome result (λ p. length bytes.now ≡ length p.1.now + SHORT_LEN) }
    ensures none { IfNone result ((n : ℕ) (rest : List ℕ) → bytes.now ≡ short n ++ rest → ⊥) }
    ensures lacks { IfNone result (length bytes.now < SHORT_LEN) }
{
    if bytes.len() < SHORT_LEN {
        return None;
    }
    let (b, rest) = bytes.split_at(SHORT_LEN);
    Some((u32::from_be_bytes([b[0], b[1], b[2], b[3]]), rest))
}

/// A number of 16 bits, and what follows it.
pub(crate) fn read_half(bytes: &[u8]) -> Option<(u16, &[u8])>
    ensures some { IfSome result (λ p. bytes.now ≡ half p.0 ++ p.1.now) }
    ensures left { IfSome result (λ p. length bytes.now ≡ length p.1.now + HALF_LEN) }
    ensures none { IfNone result ((n : ℕ) (rest : List ℕ) → bytes.now ≡ half n ++ rest → ⊥) }
    ensures lacks { IfNone result (length bytes.now < HALF_LEN) }
{
    if bytes.len() < HALF_LEN {
        return None;
    }
    let (b, rest) = bytes.split_at(HALF_LEN);
    Some((u16::from_be_bytes([b[0], b[1]]), rest))
}
