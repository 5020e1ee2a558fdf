//! A request, as far as a store answers it.
use coap_types::{Method, Opt, Path, Szx};
use std::alloc::{Allocator, Global};

/// A request, as far as a store answers it.
#[derive(Drop)]
pub struct Asking<'a, A: Allocator = Global> {
    /// What is asked for.
    pub method: Method,
    /// Of which resource.
    pub path: &'a Path<A>,
    /// The options of the request that are recognised, in order.
    pub options: &'a [Opt<'a>],
    /// The whole body; that of a GET and of a DELETE is ignored.
    pub body: &'a [u8],
    /// The size of the blocks that the server sends.
    pub szx: Szx,
}
