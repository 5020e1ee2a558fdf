//! The frames of a journal.
ghost use Rattle.std.specs.Prelude.{◌≡◌, ◌<◌, ◌≤◌, ◌^◌, ◌+◌, ◌++◌, ◌↔◌, ℕ, List, length, IfOk, IfSome, IfNone, OnOk};
ghost use Rattle.std.specs.Prelude.{IsTrue};
ghost use Rattle.coap_journal.specs.Frames.{BeginsFrame, BeginsHead, frame, head, sealed};

use crate::numbers::{SHORT_LEN, put_number, put_short, read_number, read_short};
use crate::sum::sum_of;
use std::alloc::{AllocError, Allocator};

// The length of a frame and its sum.
const HEAD_LEN: u64 = 12;

// Adds bytes that stand at this place, and then their sum.
fn put_sealed<A: Allocator>(
    out: &mut Vec<u8, A>,
    place: u64,
    bytes: &[u8],
) -> Result<(), AllocError>
    ensures { OnOk result (out.new.items ≡ out.old.items ++ sealed place bytes.now) }
{
    out.extend_from_slice(bytes)?;
    put_number(out, sum_of(place, bytes))
}

/// The frame of these bytes, which is to stand at this place of the file.
pub fn frame_bytes<A: Allocator + Copy>(
    alloc: A,
    place: u64,
    bytes: &[u8],
) -> Result<Vec<u8, A>, AllocError>
    requires room { place < 2 ^ 63 }
    requires short { length bytes.now < 2 ^ 32 }
    // A frame is the length and the bytes, each with its sum.
    ensures { IfOk result (λ v. v.items ≡ frame place bytes.now) }
{
    let mut len = Vec::new(alloc);
    put_short(&mut len, bytes.len() as u32)?;
    let mut out = Vec::new(alloc);
    put_sealed(&mut out, place, &len)?;
    put_sealed(&mut out, place + HEAD_LEN, bytes)?;
    Ok(out)
}

// The first so many bytes, where their sum follows them, and what follows that.
fn open_sealed(place: u64, len: usize, bytes: &[u8]) -> Option<(&[u8], &[u8])>
    ensures some { IfSome result (λ p. (length p.0.now ≡ len) × (bytes.now ≡ sealed place p.0.now ++ p.1.now)) }
    ensures none { IfNone result ((xs rest : List ℕ) → length xs ≡ len → bytes.now ≡ sealed place xs ++ rest → ⊥) }
{
    if bytes.len() < len {
        return None;
    }
    let (front, behind) = bytes.split_at(len);
    let (sum, rest) = read_number(behind)?;
    if sum == sum_of(place, front) {
        Some((front, rest))
    } else {
        None
    }
}

// The length of a frame, where one begins with these bytes, and what follows it.
fn read_head(place: u64, bytes: &[u8]) -> Option<(u32, &[u8])>
    ensures some { IfSome result (λ p. bytes.now ≡ head place p.0 ++ p.1.now) }
    ensures none { IfNone result (BeginsHead place bytes.now → ⊥) }
{
    let (front, rest) = open_sealed(place, SHORT_LEN, bytes)?;
    let (len, _) = read_short(front)?;
    Some((len, rest))
}

/// What the first frame has in it, where the bytes, which stand at this place, begin with one; and
/// what follows it.
pub fn read_frame(place: u64, bytes: &[u8]) -> Option<(&[u8], &[u8])>
    requires room { place < 2 ^ 63 }
    // The bytes are a frame of what is answered, and then the rest.
    ensures some { IfSome result (λ p. bytes.now ≡ frame place p.0.now ++ p.1.now) }
    // The length of what a frame has in it is a number of 32 bits.
    ensures short { IfSome result (λ p. length p.0.now < 2 ^ 32) }
    // A frame is found wherever one stands.
    ensures none { IfNone result (BeginsFrame place bytes.now → ⊥) }
{
    let (len, rest) = read_head(place, bytes)?;
    open_sealed(place + HEAD_LEN, len as usize, rest)
}

// Whether a frame's length stands there, with its sum.
pub(crate) fn begins_head(place: u64, bytes: &[u8]) -> bool
    ensures { IsTrue result ↔ BeginsHead place bytes.now }
{
    read_head(place, bytes).is_some()
}
