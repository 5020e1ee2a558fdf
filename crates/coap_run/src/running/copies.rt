//! Copies of what a run hands in.
ghost use Rattle.std.specs.Prelude.{◌≡◌, ◌≤◌, length, IfOk, option_copied};
ghost use Rattle.coap_resource.specs.Shown.{shown};

use coap_resource::Representation;
use coap_types::{MAX_TAGS, Request, Tag, Tags};
use std::alloc::{AllocError, Allocator};

// The same tags again. It takes no memory.
fn copied_tags(tags: &[Tag]) -> Tags
    requires { length tags.now ≤ MAX_TAGS }
    ensures { result ≡ tags.now }
{
    let mut copy = Tags::new();
    let mut i = 0;
    'tags: while i < tags.len() {
        let _fits = copy.push(tags[i].copy());
        i += 1;
    }
    copy
}

/// The same request again.
pub(crate) fn copied<A: Allocator + Copy>(request: &Request<A>) -> Result<Request<A>, AllocError>
    ensures { IfOk result (λ copy. copy ≡ request.now) }
{
    Ok(Request {
        method: request.method,
        path: request.path.clone()?,
        format: request.format,
        body: request.body.clone()?,
        etags: copied_tags(request.etags.as_slice()),
        if_match: copied_tags(request.if_match.as_slice()),
        if_none_match: request.if_none_match,
        accept: request.accept,
    })
}

/// The same representation again, if there is one.
pub(crate) fn copied_holding<A: Allocator + Copy>(
    held: Option<&Representation<A>>,
) -> Result<Option<Representation<A>>, AllocError>
    ensures { IfOk result (λ copy. shown copy ≡ shown (option_copied held.entry)) }
{
    let Some(held) = held else {
        return Ok(None);
    };
    Ok(Some(Representation {
        version: held.version,
        format: held.format,
        body: held.body.clone()?,
    }))
}
