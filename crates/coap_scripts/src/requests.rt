//! What the programs say of a request where nothing else is said.
ghost use Rattle.std.specs.Prelude.{◌≡◌};
ghost use Rattle.coap_client.specs.Object.CallShown.{shown_request};
ghost use Rattle.coap_scripts.specs.Script.{plain_request};

use bytes::Bytes;
use coap_types::{Method, Path, Request, Tags};
use std::alloc::Allocator;

/// A request whose only option is its path.
pub fn plain<A: Allocator>(method: Method, path: Path<A>, body: Bytes<A>) -> Request<A>
    // A plain request has this method, this path and this body, and no other option.
    ensures { shown_request result ≡ plain_request method path body }
{
    Request {
        method,
        path,
        format: None,
        body,
        etags: Tags::new(),
        if_match: Tags::new(),
        if_none_match: false,
        accept: None,
    }
}
