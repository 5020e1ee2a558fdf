//! The server (RFC 7252, section 5; RFC 7641; RFC 7959).
mod answering;
mod deferral;
mod delays;
mod due;
mod feed;
mod forgetting;
mod full_response;
mod handling;
mod load;
mod local;
mod notification;
mod observation;
mod observation_end;
mod parts;
mod paths;
mod peers;
mod plain;
mod refusing;
mod request;
mod request_checks;
mod separate_response;
mod served;
mod tick;
mod upload;

ghost use Rattle.std.specs.Prelude.{◌≡◌, ◌≢◌, ◌≤◌, ◌<◌, ◌^◌, ℕ, max, true, false, Some, [], ◌∷◌};
ghost use Rattle.std.specs.Prelude.{Ok};
ghost use Rattle.std.specs.Prelude.{Err};
ghost use Rattle.std.specs.Prelude.{is_ok, is_some, length, IfNone, IfOk, IfSome, IsOk, OnErr, OnOk, option_copied};
ghost use Rattle.coap_layer.specs.Machine.State.{answer_of, copies, made, usual};
ghost use Rattle.coap_layer.specs.Machine.Ups.{IsQuiet};
ghost use Rattle.coap_layer.specs.Trace as below;
ghost use Rattle.coap_resource.specs.Content.{nothing, put_refusal};
ghost use Rattle.coap_resource.specs.Limits.{Limits};
ghost use Rattle.coap_resource.specs.Shown.{shown};
ghost use Rattle.coap_resource.specs.declared.refusal.StoreRefusal.{StoreRefusal as StoreRefusalSpec};
ghost use Rattle.coap_resource.specs.declared.refusal.StoreRefusal.TheVariants as store_refusals;
ghost use Rattle.coap_server.specs.Deferring.{delay_of, may_delay};
ghost use Rattle.coap_server.specs.declared.server.delays.DelayRefusal.TheVariants as delay_refusals;
ghost use Rattle.coap_server.specs.declared.server.plain.PlainRefusal.TheVariants as plain_refusals;
ghost use Rattle.coap_server.specs.Led.{Led, Step, fresh_state};
ghost use Rattle.coap_server.specs.Makes.{Fed, Makes, Ticked};
ghost use Rattle.coap_server.specs.Plain.{is_plain, may_be_plain};
ghost use Rattle.coap_server.specs.Trace.{Delays, Gets, NextOut, Plains, Removes, Sets, TellsApplied};
ghost use Rattle.coap_server.specs.Object.Shown.{applied_list, kept_of, state_of};
ghost use Rattle.coap_server.specs.Turns.Idle.{IsIdle, moment};
ghost use Rattle.coap_server.specs.Turns.WhenDue.{TicksDo, latest};
ghost use Rattle.coap_server.specs.Turns.Work.{work};

use crate::server::delays::set_delay_parts;
use crate::server::due::due_parts;
use crate::server::feed::feed_parts;
use crate::server::local::{remove_parts, set_parts};
use crate::server::parts::Parts;
use crate::server::plain::set_plain_parts;
use crate::server::tick::tick_parts;
use coap_block::Assembly;
use coap_exchange::Answerer;
use coap_layer::{Datagram, Setup};
use coap_observe::Observers;
use coap_resource::{Representation, Store, StoreRefusal};
use coap_types::{Endpoint, Moment, Path, Szx};
pub use delays::{DelayRefusal, give_delay};
pub use load::Load;
pub use parts::{Applied, Delay};
pub use plain::{PlainRefusal, give_plain};
use std::alloc::{AllocError, Allocator};
use std::hash::{BuildHasher, BuildHasherDefault, FoldHasher};
use std::marker::Model;

/// A server (RFC 7252, section 5; RFC 7641; RFC 7959).
///
/// After each call take `next_out` until None; a moment before the last one counts as the last.
#[derive(Drop)]
pub struct Server<
    S: Store<A>,
    A: Allocator + Copy,
    H: BuildHasher = BuildHasherDefault<FoldHasher>,
> {
    parts: Parts<S, A, H>,
}

impl<S: Store<A>, A: Allocator + Copy, H: BuildHasher> Model for Server<S, A, H> {
    ghost use Rattle.coap_server.specs.Object.Shown.{IsTimed, Kept, kept_of, state_of};
    ghost use Rattle.coap_server.specs.Turns.Work.{WasLed};

    ghost Value = { Kept S };

    ghost view = { λ s. kept_of s.parts };

    ghost invariant = { λ s. WasLed (state_of S.content (kept_of s.parts)) × IsTimed (kept_of s.parts) };
}

impl<S: Store<A>, A: Allocator + Copy> Server<S, A, BuildHasherDefault<FoldHasher>> {
    /// A server to which nothing has happened. Its store holds nothing and was handed no moment, and
    /// an upload is joined up to its limit; the word picks the first Message ID.
    pub fn new(alloc: A, store: S, szx: Szx, word: u64) -> Self
        requires fresh { (limits : Limits) × (S.content store ≡ nothing limits) }
        // To a `new` server over an empty store no call has led.
        ensures led { (limits : Limits) → S.content store ≡ nothing limits
            → Led limits szx (usual word) [] (state_of S.content result) }
        // A `new` server over an empty store is in the state in which no call was made, by its word.
        ensures start { (limits : Limits) → S.content store ≡ nothing limits → state_of S.content result
            ≡ fresh_state limits szx (usual word) }
    {
        Server::with_hasher(alloc, store, szx, word, BuildHasherDefault::new())
    }
}

impl<S: Store<A>, A: Allocator + Copy, H: BuildHasher> Server<S, A, H> {
    /// The same, with a hasher for the messages that are remembered.
    pub fn with_hasher(alloc: A, store: S, szx: Szx, word: u64, hasher: H) -> Self
        requires fresh { (limits : Limits) × (S.content store ≡ nothing limits) }
        // To a server of `with_hasher` over an empty store no call has led.
        ensures led { (limits : Limits) → S.content store ≡ nothing limits
            → Led limits szx (usual word) [] (state_of S.content result) }
        // A server of `with_hasher` is in the state in which no call was made, whatever the hasher.
        ensures start { (limits : Limits) → S.content store ≡ nothing limits → state_of S.content result
            ≡ fresh_state limits szx (usual word) }
    {
        Server::with_setup(alloc, store, szx, Setup::new(word), hasher)
    }

    /// The same, with so many messages that are remembered at most (RFC 7252, section 4.5).
    pub fn with_setup(alloc: A, store: S, szx: Szx, setup: Setup, hasher: H) -> Self
        requires fresh { (limits : Limits) × (S.content store ≡ nothing limits) }
        // To a server of `with_setup` over an empty store no call has led, and as many messages can be remembered as
        // were chosen.
        ensures led { (limits : Limits) → S.content store ≡ nothing limits
            → Led limits szx setup [] (state_of S.content result) }
        // A server of `with_setup` is in the state in which no call was made, by its word and number of places.
        ensures start { (limits : Limits) → S.content store ≡ nothing limits → state_of S.content result
            ≡ fresh_state limits szx setup }
    {
        let uploads = Assembly::with_limit(alloc, szx, store.limit());
        Server {
            parts: Parts {
                alloc,
                szx,
                clock: Moment(0),
                exchanges: Answerer::with_setup(alloc, setup, hasher),
                store,
                uploads,
                observers: Observers::new(alloc),
                plains: Vec::new(alloc),
                delays: Vec::new(alloc),
                waiting: Vec::new(alloc),
                applied: None,
            },
        }
    }

    /// Takes a datagram that arrived at this moment, in milliseconds: a request is answered, deferred
    /// or passed over, what a Reset ends is no longer observed (RFC 7252, section 5.2; RFC 7641,
    /// section 4.5). After an `Err` the server is as before, and the datagram counts as lost.
    ///
    /// ```
    /// server.set(now, &path, Some(TEXT_PLAIN), b"22.3 C")?;
    /// server.feed(now, from, datagram, word)?;
    /// while let Some(reply) = server.next_out() {
    ///     send(reply.to(), reply.bytes());
    /// }
    /// ```
    pub fn feed(
        &mut self,
        now: Moment,
        from: Endpoint,
        bytes: &[u8],
        word: u64,
    ) -> Result<(), AllocError>
        // What a datagram makes of the server is a step of its machine.
        ensures step { OnOk result (Makes (state_of S.content self.old) (Fed now.0 from bytes.now word)
            (state_of S.content self.new)) }
        // A datagram that is refused memory leaves the server as it was.
        ensures err { OnErr result (self.new ≡ self.old) }
        // Where the message layer sends nothing and hands nothing up, it takes no memory.
        ensures quiet { IsQuiet (made self.old.exchanges.layer (max self.old.clock now.0)
            (below.Receive from bytes.now)) → IsOk result }
    {
        feed_parts(&mut self.parts, now, from, bytes)
    }

    /// Does the first that is due at this moment, in milliseconds: the failure of a response, which
    /// ends an observation, a retransmission, the response to a deferred request, a notification;
    /// whether something was (RFC 7252, sections 4.2 and 5.2.2; RFC 7641, section 4.5). The word picks
    /// the initial timeout of what is sent. Call it until it answers false. After an `Err` the server
    /// is as before.
    pub fn tick(&mut self, now: Moment, word: u64) -> Result<bool, AllocError>
        // Whether a tick did something, and what that leaves, is a step of the server's machine.
        ensures step { IfOk result (λ did. Makes (state_of S.content self.old) (Ticked now.0 word did)
            (state_of S.content self.new)) }
        // Each tick of a server that does something leaves less to be done at its moment.
        ensures less { result ≡ Ok true
            → work (state_of S.content self.new) now.0 < work (state_of S.content self.old) now.0 }
        // A tick that is refused memory leaves the server as it was.
        ensures err { OnErr result (self.new ≡ self.old) }
        // Where nothing is to be sent, or a failure comes first, it takes no memory.
        ensures quiet { IsIdle (state_of S.content self.old) now.0 → IsOk result }
        // A tick at which a failure comes first is not refused memory.
        ensures fails { copies (moment (state_of S.content self.old) now.0) self.old.exchanges.layer.open_cons ≡ []
            → answer_of self.old.exchanges.layer (moment (state_of S.content self.old) now.0) below.Ticks ≢ below.Idle
            → IsOk result }
    {
        tick_parts(&mut self.parts, now, word)
    }

    /// The first moment at which a tick would do something, unless something is handed in before, and no
    /// earlier than the last that was handed in; None where it never would. Nothing changes. It takes no
    /// memory.
    pub fn due(&self) -> Option<Moment>
        // Where the server tells no moment, no later tick does anything unless something is handed in.
        ensures none { IfNone result ((now : ℕ) → now < 2 ^ 64 → TicksDo false (state_of S.content self.now) now) }
        // No tick of the server before the moment that is told does anything.
        ensures some { IfSome result (λ at. (now : ℕ) → max (latest (state_of S.content self.now)) now < at.0
            → TicksDo false (state_of S.content self.now) now) }
        // A tick of the server at the moment that is told does something.
        ensures does { IfSome result (λ at. TicksDo true (state_of S.content self.now) at.0) }
        // The moment that the server tells is not before its latest.
        ensures from { IfSome result (λ at. latest (state_of S.content self.now) ≤ at.0) }
    {
        due_parts(&self.parts)
    }

    /// Puts a body no longer than the store's limit, of that Content-Format (RFC 7252, section 12.3), in
    /// place of what the path holds, and marks its observers; answers the version. After `Memory`
    /// nothing changed; after another refusal its moment has counted alone.
    pub fn set(
        &mut self,
        now: Moment,
        path: &Path<A>,
        format: Option<u16>,
        body: &[u8],
    ) -> Result<u64, StoreRefusal>
        // The version of a local change, or why it is refused, and what that leaves, is a step of the server.
        ensures step { result ≢ Err store_refusals.Memory → Step (state_of S.content self.old)
            (Sets now.0 path.now format body.now result (state_of S.content self.new).own.store)
            (state_of S.content self.new) }
        // A local change that is refused memory leaves the server as it was.
        ensures memory { result ≡ Err store_refusals.Memory → self.new ≡ self.old }
        // Where the store has a reason not to put it there at that moment, that is the answer, and never Memory.
        ensures refused { (why : StoreRefusalSpec) → put_refusal (state_of S.content self.old).own.store
            (max (state_of S.content self.old).own.clock now.0) path.now (length body.now) ≡ Some why
            → result ≡ Err why }
    {
        set_parts(&mut self.parts, now, path, format, body)
    }

    /// Takes away what the path holds, and marks its observers; false where it holds nothing. It takes
    /// no memory.
    pub fn remove(&mut self, now: Moment, path: &Path<A>) -> Result<bool, StoreRefusal>
        // What a local removal answers and leaves is a step of the server's machine.
        ensures step { Step (state_of S.content self.old)
            (Removes now.0 path.now result (state_of S.content self.new).own.store) (state_of S.content self.new) }
    {
        remove_parts(&mut self.parts, now, path)
    }

    /// Has each Confirmable request of the path wait for so many milliseconds and be answered then,
    /// by a separate response (RFC 7252, section 5.2.2; a profile). It takes no memory where
    /// `MAX_DELAYS` other paths have a delay, or the path has one.
    pub fn set_delay(&mut self, path: &Path<A>, ms: u64) -> Result<(), DelayRefusal>
        // Whether a path is given a delay, and what that leaves, is a step of the server's machine.
        ensures step { result ≢ Err delay_refusals.Memory → Step (state_of S.content self.old)
            (Delays path.now ms (is_ok result)) (state_of S.content self.new) }
        // A delay that is refused memory leaves the server as it was.
        ensures memory { result ≡ Err delay_refusals.Memory → self.new ≡ self.old }
        // Where 16 other paths have a delay, a further one is refused as Full.
        ensures full { may_delay path.now (state_of S.content self.old).own.delays ≡ false → result
            ≡ Err delay_refusals.Full }
        // A path that has a delay is given another without memory.
        ensures again { is_some (delay_of path.now (state_of S.content self.old).own.delays) ≡ true
            → result ≢ Err delay_refusals.Memory }
    {
        set_delay_parts(&mut self.parts, path, ms)
    }

    /// Has the observers of the path told in Non-confirmable messages, while its state is young, and in a
    /// Confirmable one once a day (RFC 7641, section 4.5; a profile). It takes no memory where
    /// `MAX_PLAINS` other paths are plain, or the path is.
    pub fn set_plain(&mut self, path: &Path<A>) -> Result<(), PlainRefusal>
        // Whether a path is made plain, and what that leaves, is a step of the server's machine.
        ensures step { result ≢ Err plain_refusals.Memory → Step (state_of S.content self.old)
            (Plains path.now (is_ok result)) (state_of S.content self.new) }
        // A path that can't be made plain for want of memory leaves the server as it was.
        ensures memory { result ≡ Err plain_refusals.Memory → self.new ≡ self.old }
        // Where 16 other paths are plain, a further one is refused as Full.
        ensures full { may_be_plain path.now (state_of S.content self.old).own.plains ≡ false → result
            ≡ Err plain_refusals.Full }
        // A path that is plain stays so without memory.
        ensures again { is_plain path.now (state_of S.content self.old).own.plains ≡ true
            → result ≢ Err plain_refusals.Memory }
    {
        set_plain_parts(&mut self.parts, path)
    }

    /// What the path holds: its version, its format and its body. It takes no memory.
    pub fn get(&self, path: &Path<A>) -> Option<&Representation<A>>
        // What a path holds is told as the server's machine has it.
        ensures step { Step (state_of S.content self.now) (Gets path.now (shown (option_copied result)))
            (state_of S.content self.now) }
    {
        self.parts.store.get(path)
    }

    /// What the last `feed` or `tick` applied: the PUT, POST or DELETE that it answered 2.01, 2.02 or
    /// 2.04, if any. It takes no memory.
    pub fn applied(&self) -> Option<&Applied<A>>
        // Which request was applied last is told as the server's machine has it.
        ensures step { Step (state_of S.content self.now) (TellsApplied (applied_list (option_copied result)))
            (state_of S.content self.now) }
    {
        self.parts.applied.as_ref()
    }

    /// The datagram that is to be sent next. It takes no memory.
    pub fn next_out(&mut self) -> Option<Datagram<A>>
        // Which datagram the server gives out, and what that leaves, is a step of its machine.
        ensures step { Step (state_of S.content self.old) (NextOut result) (state_of S.content self.new) }
        // The datagram that the server gives out is the first that waited.
        ensures some { IfSome result (λ datagram. self.old.exchanges.layer.queue
            ≡ datagram ∷ self.new.exchanges.layer.queue) }
        // The server gives out none only where none waited, and nothing changes.
        ensures none { IfNone result ((self.old.exchanges.layer.queue ≡ [])
            × (state_of S.content self.new ≡ state_of S.content self.old)) }
        // No more datagrams wait at a server than a list in memory holds.
        ensures few { length self.old.exchanges.layer.queue < 2 ^ 64 }
    {
        self.parts.exchanges.next_out()
    }
}
