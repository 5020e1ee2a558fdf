//! Bodies that are joined.
ghost use Rattle.std.specs.Prelude.{◌≡◌, ◌++◌, IfOk};

use bytes::Bytes;
use std::alloc::{AllocError, Allocator};

/// One body of two slices, the one behind the other.
pub fn appended<A: Allocator + Copy>(
    alloc: A,
    front: &[u8],
    back: &[u8],
) -> Result<Bytes<A>, AllocError>
    // The body that is joined is the first slice and behind it the second.
    ensures { IfOk result (λ whole. whole ≡ front.now ++ back.now) }
{
    let mut whole = Vec::with_capacity(alloc, front.len() + back.len())?;
    whole.extend_from_slice(front)?;
    whole.extend_from_slice(back)?;
    Ok(Bytes::from_vec(whole)?)
}
