//! A fetch of a body whose parts may have no entity-tag (RFC 7959, section 2.4).
ghost use Rattle.std.specs.Prelude.{◌≡◌, IfOk, OnOk, OnErr, IsOk, length};
ghost use Rattle.coap_block.specs.FetchAnswer.{IsQuiet};
ghost use Rattle.coap_parts.specs.PartTrace.{PartTrace, Led, Made, TakesPart, Took, given_out, nothing_yet, verdict_on};

use crate::tags::{Gathered, handed, joins, tagged_so};
use bytes::Bytes;
use coap_block::{Fetch, FetchRefusal, Step};
use coap_types::{Block, BodyLimit, Szx, Tag};
use std::alloc::{AllocError, Allocator, Global};
use std::marker::Model;

/// What a part led to.
#[derive(Drop)]
pub enum Progress<A: Allocator = Global> {
    /// More is to come: the block to ask for.
    Next(Block),
    /// The body is whole, and of one version: its parts had one entity-tag, or it is one part.
    Whole(Bytes<A>),
    /// The body is joined of parts that had no entity-tag: it is not proved to be of one version.
    Joined(Bytes<A>),
    /// The body changed: ask as at the start.
    Again,
    /// The part is not taken.
    Refused(FetchRefusal),
}

/// A fetch of a body in blocks. A contract sees what it keeps.
#[derive(Drop)]
pub struct PartFetch<A: Allocator = Global> {
    fetch: Fetch<A>,
    untagged: bool,
    gathered: Gathered,
}

impl<A: Allocator> Model for PartFetch<A> {
    ghost use Rattle.coap_parts.specs.PartTrace.{PartState};

    ghost Value = { PartState };

    ghost view = { λ f. record { fetch = f.fetch.state; untagged = f.untagged; gathered = f.gathered } };
}

impl<A: Allocator + Copy> PartFetch<A> {
    /// A fetch that has nothing yet: its block size, its longest body, and whether parts without an entity-tag are
    /// joined.
    pub fn new(alloc: A, szx: Szx, limit: BodyLimit, untagged: bool) -> PartFetch<A>
        // A `new` fetch has gathered nothing, and has its sizes and its leave.
        ensures state { result ≡ nothing_yet (record { szx = szx; limit = limit }) untagged }
        // To a `new` fetch of parts no part has led.
        ensures led { Led (Made (record { szx = szx; limit = limit }) untagged) result }
    {
        PartFetch {
            fetch: Fetch::with_limit(alloc, szx, limit),
            untagged,
            gathered: Gathered::Nothing,
        }
    }

    /// Takes the part that came in a 2.05: its Block2, its ETag and its payload. After a refusal the fetch is as
    /// before.
    pub fn accept(
        &mut self,
        block: Option<Block>,
        came: Option<Tag>,
        payload: &[u8],
    ) -> Result<Progress<A>, AllocError>
        // The answer to a part is that of the table of parts, with the entity-tag that it is taken with.
        ensures step { IfOk result (λ answer. TakesPart self.old block came payload.now answer self.new) }
        // Every history that led to the fetch of parts leads on with this part, unless it was refused memory.
        ensures led { OnOk result ((t : PartTrace) → Led t self.old → Led (Took t block came payload.now) self.new) }
        // A part that is refused memory leaves the fetch of parts as it was.
        ensures err { OnErr result (self.new ≡ self.old) }
        // What is refused of a fetch of parts, or begins it anew, takes no memory.
        ensures quiet { IsQuiet (verdict_on self.old block came (length payload.now)) → IsOk result }
    {
        let tag = handed(self.untagged, &self.gathered, &came);
        match self.fetch.accept(block, tag, payload)? {
            Step::Next(next) => {
                self.gathered = tagged_so(came);
                Ok(Progress::Next(next))
            }
            Step::Whole(body) => {
                let joined = joins(&self.gathered);
                self.gathered = Gathered::Nothing;
                Ok(given_out(joined, body))
            }
            Step::Restart => {
                self.gathered = Gathered::Nothing;
                Ok(Progress::Again)
            }
            Step::Refused(why) => Ok(Progress::Refused(why)),
        }
    }
}

// A body that is given out.
fn given_out<A: Allocator>(joined: bool, body: Bytes<A>) -> Progress<A>
    ensures { result ≡ given_out joined body }
{
    if joined {
        Progress::Joined(body)
    } else {
        Progress::Whole(body)
    }
}
