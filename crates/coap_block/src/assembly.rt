//! The server's side of a Block1 transfer: it joins the blocks of an upload (RFC 7959, section 2.5).
ghost use Rattle.std.specs.Prelude.{◌≡◌, ◌≤◌, ◌+◌, true, None, Some, IfOk, OnOk, OnErr, IsOk, IsSome, length};
ghost use Rattle.std.specs.Prelude.{max, vec_len, vec_capacity};
ghost use Rattle.std.specs.List.{list_any};
ghost use Rattle.coap_types.specs.SameEndpoint.{same_endpoint};
ghost use Rattle.coap_block.specs.Sizes.{usual_sizes};
ghost use Rattle.coap_block.specs.AssemblyState.{body_with, forgotten, nothing_yet, with_payload, without_peer};
ghost use Rattle.coap_block.specs.AssemblyStep.{partials_by, verdict_at};
ghost use Rattle.coap_block.specs.AssemblyAnswer.{IsRefused, TakesBlock, took};
ghost use Rattle.coap_block.specs.AssemblyTrace.{Arrived, AssemblyTrace, Forgot, Led, Made};
ghost use Rattle.coap_block.specs.AssemblyKept.{partials_of, key_of, there_of, undone, AreFew, IsUndoable};

use crate::arrival::Arrival;
use crate::assembly_judging::{MAX_PARTIALS, judge};
use crate::assembly_step::{AssemblyRefusal, Took};
use crate::assembly_undo::{Before, Change};
use crate::block_verdict::BlockVerdict;
use crate::partial::Partial;
use crate::partials::{any_from, counts, join, live, restore, take_all_from, take_out, whole};
use crate::upload_key::UploadKey;
use coap_types::{Block, BodyLimit, Endpoint, Moment, Szx};
use std::alloc::{AllocError, Allocator, Global};
use std::marker::Model;

/// The Block1 transfers at a server (RFC 7959, section 2.5): it joins the blocks of each upload in
/// order. A contract sees its state and what `undo` would give back.
#[derive(Drop)]
#[derive_where(Debug)]
pub struct Assembly<A: Allocator = Global> {
    szx: Szx,
    limit: BodyLimit,
    clock: Moment,
    partials: Vec<Partial<A>, A>,
    before: Option<Before<A>>,
}

impl<A: Allocator> Model for Assembly<A> {
    ghost use Rattle.coap_block.specs.AssemblyKept.{AssemblyValue, partials_of, value_of, AreFew, AreFewBefore};
    ghost use Rattle.coap_block.specs.AssemblyKept.{IsUndoableBefore};

    ghost Value = { AssemblyValue };

    ghost view = { λ a. value_of (record { szx = a.szx; limit = a.limit }) a.clock.0 (partials_of a.partials.items)
        a.before };

    ghost invariant = { λ a. IsUndoableBefore a.before a.partials
        × AreFew a.clock.0 (partials_of a.partials.items) × AreFewBefore (partials_of a.partials.items) a.before };
}

impl<A: Allocator + Copy> Assembly<A> {
    /// An assembly of no blocks, that asks for blocks of at most that size, and joins bodies of at most
    /// `DEFAULT_BODY_LIMIT` bytes.
    pub fn new(alloc: A, szx: Szx) -> Assembly<A>
        // A `new` assembly has no partial body, and the usual limit.
        ensures state { result.state ≡ nothing_yet (usual_sizes szx) }
        // To a `new` assembly no block has led.
        ensures led { Led (Made (usual_sizes szx)) result.state }
        // A `new` assembly has no block to take back.
        ensures before { result.before ≡ None }
    {
        Assembly::with_limit(alloc, szx, BodyLimit::default())
    }

    /// The same for bodies of at most that limit.
    pub fn with_limit(alloc: A, szx: Szx, limit: BodyLimit) -> Assembly<A>
        // An assembly of `with_limit` has no partial body, and that limit.
        ensures state { result.state ≡ nothing_yet (record { szx = szx; limit = limit }) }
        // To an assembly of `with_limit` no block has led.
        ensures led { Led (Made (record { szx = szx; limit = limit })) result.state }
        // An assembly of `with_limit` has no block to take back.
        ensures before { result.before ≡ None }
    {
        Assembly {
            szx,
            limit,
            clock: Moment(0),
            partials: Vec::new(alloc),
            before: None,
        }
    }

    /// Takes a block of an upload that came at `now` (RFC 7959, sections 2.5 and 2.9): its Block1 and
    /// its payload. A `now` before the last one counts as the last one; every `now` counts, also of a
    /// block that is refused. A refusal leaves the partial bodies, but for 4.13, which drops that of
    /// the key; it takes no memory.
    pub fn take(
        &mut self,
        now: Moment,
        key: &UploadKey<A>,
        block: Block,
        payload: &[u8],
    ) -> Result<Took<A>, AllocError>
        // The answer to a block is the first that holds in the table of blocks (RFC 7959, section 2.9).
        ensures step { IfOk result (λ answer.
            TakesBlock self.old.state now.0 (key_of key.now) block payload.now answer self.new.state) }
        // Every history that led to the assembly leads on with this block, unless it was refused memory.
        ensures led { OnOk result ((t : AssemblyTrace) → Led t self.old.state
            → Led (Arrived t now.0 (key_of key.now) block payload.now) self.new.state) }
        // A block that is taken can be taken back.
        ensures before { OnOk result (self.new.before ≡ Some self.old.state) }
        // A block that is refused memory leaves the assembly as it was.
        ensures err { OnErr result (self.new ≡ self.old) }
        // A refusal takes no memory.
        ensures quiet { IsRefused (verdict_at self.old.state now.0 (key_of key.now) block (length payload.now))
            → IsOk result }
    {
        let num = block.num;
        let was = self.clock;
        let at = was.later(now);
        let (reached, others) = counts(&self.partials, key, at);
        let verdict = judge(self.szx, self.limit, reached, others, block, payload.len());
        let arrival = Arrival {
            was,
            at,
            key,
            num,
            payload,
        };
        let (took, change) = act(&mut self.partials, &arrival, verdict)?;
        self.clock = at;
        self.before = Some(Before { clock: was, change });
        Ok(took)
    }

    /// How many uploads have a partial body at this moment. A moment before the last one counts as the last. Nothing
    /// changes: the moment doesn't count. It takes no memory.
    pub fn partial_len(&self, now: Moment) -> usize
        // The number is that of the partial bodies whose last block is not too long ago.
        ensures { result ≡ length (forgotten (max self.now.state.clock now.0) self.now.state.partials) }
    {
        live(&self.partials, self.clock.later(now))
    }

    /// Whether an upload from there has a partial body at this moment. A moment before the last one counts as the last.
    /// Nothing changes: the moment doesn't count. It takes no memory.
    pub fn knows(&self, now: Moment, from: Endpoint) -> bool
        // An endpoint is known where one of the partial bodies whose last block is not too long ago is of its uploads.
        ensures { result ≡ list_any (λ p. same_endpoint p.key.from from)
            (forgotten (max self.now.state.clock now.0) self.now.state.partials) }
    {
        any_from(&self.partials, from, self.clock.later(now))
    }

    /// Takes away each partial body of an upload from there: of an endpoint that never comes again. After it, no block
    /// can be taken back. It takes no memory.
    pub fn forget(&mut self, from: Endpoint)
        // After it that endpoint has no partial body, and those of others are as they were.
        ensures state { self.new.state ≡ without_peer from self.old.state }
        // Every history that led to the assembly leads on with an endpoint that is forgotten.
        ensures led { (t : AssemblyTrace) → Led t self.old.state → Led (Forgot t from) self.new.state }
        // After an endpoint is forgotten there is no block to take back.
        ensures before { self.new.before ≡ None }
    {
        self.before = None;
        take_all_from(&mut self.partials, from);
    }

    /// Takes the last block back, so that the assembly is as before it. There is to have been one that
    /// was not refused memory, and no `undo` since.
    pub fn undo(&mut self)
        requires { IsSome self.old.before }
        // The last block is taken back: the assembly is as it was before it.
        ensures back { self.old.before ≡ Some self.new.state }
        // After that the assembly has no block to take back.
        ensures spent { self.new.before ≡ None }
    {
        if let Some(before) = self.before.take() {
            self.clock = before.clock;
            restore(&mut self.partials, before.change);
        }
    }
}

// Does what the verdict says: the answer, and what `undo` is to take back.
fn act<A: Allocator + Copy>(
    partials: &mut Vec<Partial<A>, A>,
    arrival: &Arrival<'_, '_, A>,
    verdict: BlockVerdict,
) -> Result<(Took<A>, Change<A>), AllocError>
    requires order { arrival.now.was.0 ≤ arrival.now.at.0 }
    requires few { AreFew arrival.now.was.0 (partials_of partials.old.items) }
    ensures answer { IfOk result (λ r. r.0 ≡ took (with_payload (key_of arrival.now.key.now) arrival.now.num
        arrival.now.payload.now (there_of arrival.now.at.0 partials.old.items)) arrival.now.num verdict) }
    ensures left { OnOk result (there_of arrival.now.at.0 partials.new.items ≡ partials_by verdict
        (body_with (key_of arrival.now.key.now) arrival.now.num arrival.now.payload.now arrival.now.at.0
        (there_of arrival.now.at.0 partials.old.items)) (there_of arrival.now.at.0 partials.old.items)) }
    ensures back { IfOk result (λ r. forgotten arrival.now.was.0 (undone r.1 partials.new.items)
        ≡ there_of arrival.now.was.0 partials.old.items) }
    ensures undoable { IfOk result (λ r. IsUndoable r.1 partials.new) }
    ensures few { OnOk result (length (partials_of partials.new.items) ≤ MAX_PARTIALS + 1) }
    ensures few_back { IfOk result (λ r. length (undone r.1 partials.new.items) ≤ MAX_PARTIALS + 1) }
    ensures err { OnErr result (partials_of partials.new.items ≡ partials_of partials.old.items) }
    ensures len { OnErr result (vec_len partials.new ≡ vec_len partials.old) }
    ensures room { OnErr result (vec_capacity partials.old ≤ vec_capacity partials.new) }
    ensures quiet { IsRefused verdict → IsOk result }
{
    match verdict {
        BlockVerdict::Refuse(why) => {
            let change = match why {
                AssemblyRefusal::EntityTooLarge => take_out(partials, arrival.key, arrival.at),
                _ => Change::Clock,
            };
            Ok((Took::Refused(why), change))
        }
        BlockVerdict::Done => {
            let whole = whole(partials, arrival)?;
            let change = take_out(partials, arrival.key, arrival.at);
            Ok((Took::Whole(whole), change))
        }
        BlockVerdict::Join(szx) => {
            let change = join(partials, arrival)?;
            Ok((Took::More(block_to_answer(arrival.num, szx)), change))
        }
    }
}

// The Block1 of a 2.31 Continue (RFC 7959, section 2.3).
fn block_to_answer(num: u32, szx: Szx) -> Block
    ensures { result ≡ record { num = num; more = true; szx = szx } }
{
    Block {
        num,
        more: true,
        szx,
    }
}
