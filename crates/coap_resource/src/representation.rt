//! What a path holds (RFC 7252, section 5.5.1).
use bytes::Bytes;
use std::alloc::{Allocator, Global};

/// What a path holds (RFC 7252, section 5.5.1).
#[derive(Drop)]
pub struct Representation<A: Allocator = Global> {
    /// The number of the change that made it. Its entity-tag is this number in 8 bytes.
    pub version: u64,
    /// The format of the body, where it was told (RFC 7252, section 5.10.3).
    pub format: Option<u16>,
    /// The whole body.
    pub body: Bytes<A>,
}
