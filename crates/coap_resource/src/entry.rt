//! An entry of a store that is a list.
use crate::representation::Representation;
use coap_types::Path;
use std::alloc::Allocator;

/// A path and what it holds.
#[derive(Drop)]
pub(crate) struct Entry<A: Allocator> {
    pub(crate) path: Path<A>,
    pub(crate) held: Representation<A>,
}
