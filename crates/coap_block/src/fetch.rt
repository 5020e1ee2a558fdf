//! The client's side of a Block2 transfer: it joins the parts of one representation (RFC 7959, section 2.4).
ghost use Rattle.std.specs.Prelude.{◌≡◌, ◌≤◌, false, None, Some, IfOk, IfSome, OnOk, OnErr, IsOk, IsSome, length};
ghost use Rattle.coap_block.specs.Sizes.{usual_sizes};
ghost use Rattle.coap_block.specs.FetchStep.{start, verdict};
ghost use Rattle.coap_block.specs.FetchTrace.{FetchTrace, Led, Made, Took};
ghost use Rattle.coap_block.specs.FetchAnswer.{block_asked, Takes, IsNumbered, IsQuiet};

use crate::fetch_judging::judge;
use crate::fetch_progress::{Asked, Before, Progress};
use crate::fetch_step::Step;
use crate::fetch_verdict::Verdict;
use crate::gathering::Gathering;
use coap_types::{Block, BodyLimit, MAX_NUM, Szx, Tag};
use std::alloc::{AllocError, Allocator, Global};
use std::marker::Model;
use std::mem;

/// A Block2 transfer at the client (RFC 7959, section 2.4): it gathers the parts of one body, which
/// carry one ETag. A contract sees its state and what `undo` would give back.
#[derive(Drop)]
#[derive_where(Debug)]
pub struct Fetch<A: Allocator = Global> {
    szx: Szx,
    limit: BodyLimit,
    bytes: Gathering<A>,
    progress: Progress,
    before: Before,
}

impl<A: Allocator> Model for Fetch<A> {
    ghost use Rattle.coap_block.specs.FetchState.{FetchValue, value_of, IsGoing, IsGoingBefore};

    ghost Value = { FetchValue };

    ghost view = { λ f. value_of (record { szx = f.szx; limit = f.limit }) f.bytes f.progress f.before };

    ghost invariant = { λ f. IsGoing f.progress f.bytes × IsGoingBefore f.before f.bytes };
}

impl<A: Allocator + Copy> Fetch<A> {
    /// A fetch that asks for blocks of at most that size, of a body of at most `DEFAULT_BODY_LIMIT`
    /// bytes. The first request carries no Block2.
    pub fn new(alloc: A, szx: Szx) -> Fetch<A>
        // A `new` fetch has gathered nothing, asks for blocks of that size, and has the usual limit.
        ensures state { result.state ≡ start (usual_sizes szx) 0 }
        // To a `new` fetch no part has led.
        ensures led { Led (Made (usual_sizes szx)) result.state }
        // A `new` fetch has no part to take back.
        ensures before { result.before ≡ None }
    {
        Fetch::with_limit(alloc, szx, BodyLimit::default())
    }

    /// The same for a body of at most that limit.
    pub fn with_limit(alloc: A, szx: Szx, limit: BodyLimit) -> Fetch<A>
        // A fetch of `with_limit` has gathered nothing, and has that limit.
        ensures state { result.state ≡ start (record { szx = szx; limit = limit }) 0 }
        // To a fetch of `with_limit` no part has led.
        ensures led { Led (Made (record { szx = szx; limit = limit })) result.state }
        // A fetch of `with_limit` has no part to take back.
        ensures before { result.before ≡ None }
    {
        Fetch {
            szx,
            limit,
            bytes: Gathering::new(alloc),
            progress: Progress::start(0),
            before: Before::Nothing,
        }
    }

    /// The greatest size of the blocks that it asks for.
    pub fn szx(&self) -> Szx
        // The size is the greatest of the blocks that are asked for.
        ensures { result ≡ self.now.state.szx }
    {
        self.szx
    }

    /// The block that it asked for (RFC 7959, section 2.4); None at its start, where the request
    /// carries no Block2.
    pub fn asked(&self) -> Option<Block>
        // The block that is asked for is that behind what is gathered, and at first none (RFC 7959, section 2.4).
        ensures block { result ≡ block_asked self.now.state }
        // The NUM of the block that is asked for can be written.
        ensures numbered { IfSome result (λ block. block.num ≤ MAX_NUM) }
    {
        let asked = self.progress.asked?;
        Some(block_to_ask(asked.num, asked.szx))
    }

    /// Takes the part that came in a 2.05 (RFC 7959, section 2.4): its Block2, its ETag and its
    /// payload. No Block2 is a body of one part; a Block2 that `Block::read` refuses is not that, and
    /// is not to be handed in. After a refusal the fetch is as before, after Whole as at its start.
    pub fn accept(
        &mut self,
        block: Option<Block>,
        tag: Option<Tag>,
        payload: &[u8],
    ) -> Result<Step<A>, AllocError>
        // The answer to a part is the first that holds in the table of parts (RFC 7959, section 2.4).
        ensures step { IfOk result (λ answer. Takes self.old.state block tag payload.now answer self.new.state) }
        // Every history that led to the fetch leads on with this part, unless it was refused memory.
        ensures led { OnOk result ((t : FetchTrace) → Led t self.old.state
            → Led (Took t block tag payload.now) self.new.state) }
        // A part that is taken can be taken back.
        ensures before { OnOk result (self.new.before ≡ Some self.old.state) }
        // A part that is refused memory leaves the fetch as it was.
        ensures err { OnErr result (self.new ≡ self.old) }
        // The block to ask for next has a NUM that can be written.
        ensures numbered { IfOk result IsNumbered }
        // What is refused or begins anew takes no memory.
        ensures quiet { IsQuiet (verdict self.old.state block tag (length payload.now)) → IsOk result }
    {
        match judge(
            self.szx,
            self.limit,
            &self.progress,
            block,
            &tag,
            payload.len(),
        ) {
            Verdict::Refuse(why) => {
                self.before = Before::Same;
                Ok(Step::Refused(why))
            }
            Verdict::Again => {
                let restarts = self.progress.restarts + 1;
                self.before = Before::Was(self.progress.start_again(restarts));
                Ok(Step::Restart)
            }
            Verdict::Done => {
                let whole = self.bytes.whole_at(self.progress.len, payload)?;
                self.before = Before::Was(self.progress.start_again(0));
                Ok(Step::Whole(whole))
            }
            Verdict::Ask(num, szx) => {
                self.bytes.put_at(self.progress.len, payload)?;
                let next = Asked { num, szx };
                self.before = Before::Was(self.progress.go_on(payload.len(), next, tag));
                Ok(Step::Next(block_to_ask(num, szx)))
            }
        }
    }

    /// Takes the last accepted part back, so that the fetch is as before it. There is to have been
    /// one that was not refused memory, and no `undo` since.
    pub fn undo(&mut self)
        requires { IsSome self.old.before }
        // The last part is taken back: the fetch is as it was before it.
        ensures back { self.old.before ≡ Some self.new.state }
        // After that the fetch has no part to take back.
        ensures spent { self.new.before ≡ None }
    {
        if let Before::Was(was) = mem::replace(&mut self.before, Before::Nothing) {
            self.progress = was;
        }
    }
}

// The block of that number and size, as it is asked for (RFC 7959, section 2.4).
fn block_to_ask(num: u32, szx: Szx) -> Block
    ensures { result ≡ record { num = num; more = false; szx = szx } }
{
    Block {
        num,
        more: false,
        szx,
    }
}
