//! What tells the uploads at a server apart: endpoint, path and method (RFC 7959, section 2.5).
ghost use Rattle.std.specs.Prelude.{◌≡◌, IfOk};
ghost use Rattle.coap_block.specs.AssemblyState.{same_key};
ghost use Rattle.coap_block.specs.AssemblyKept.{key_of};

use coap_types::{Endpoint, Method, Path};
use std::alloc::{AllocError, Allocator, Global};

/// What tells an upload from the others at a server (RFC 7959, section 2.5).
#[derive(Drop)]
#[derive_where(Debug)]
pub struct UploadKey<A: Allocator = Global> {
    /// Who sends it.
    pub from: Endpoint,
    /// The path of the resource.
    pub path: Path<A>,
    /// The method of the requests.
    pub method: Method,
}

impl<A: Allocator + Copy> UploadKey<A> {
    /// Whether both are of one upload.
    pub(crate) fn is(&self, other: &UploadKey<A>) -> bool
        ensures { result ≡ same_key (key_of self.now) (key_of other.now) }
    {
        self.from == other.from
            && self.path == other.path
            && self.method.code() == other.method.code()
    }

    /// The same.
    pub(crate) fn copy(&self) -> Result<UploadKey<A>, AllocError>
        ensures { IfOk result (λ copy. key_of copy ≡ key_of self.now) }
    {
        Ok(UploadKey {
            from: self.from,
            path: self.path.clone()?,
            method: self.method,
        })
    }
}
