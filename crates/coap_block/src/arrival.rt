//! A block of an upload that arrived, with its moment (RFC 7959, section 2.5).
use crate::upload_key::UploadKey;
use coap_types::Moment;
use std::alloc::Allocator;

/// A block of an upload, and when it came.
#[derive(Drop)]
pub(crate) struct Arrival<'k, 'p, A: Allocator> {
    /// The clock before it.
    pub(crate) was: Moment,
    /// When it came, no earlier than that.
    pub(crate) at: Moment,
    /// Of which upload.
    pub(crate) key: &'k UploadKey<A>,
    /// Its number (NUM of its Block1).
    pub(crate) num: u32,
    /// Its bytes.
    pub(crate) payload: &'p [u8],
}
