//! The client (RFC 7252, section 5; RFC 7641; RFC 7959).
mod due;
mod end;
mod event;
mod get_answer;
mod heard;
mod held;
mod last_request;
mod load;
mod notification;
mod observation_fetch;
mod observations;
mod operation;
mod parts;
mod queue;
mod report;
mod request;
mod request_options;
mod responses;
mod scheduler;
mod short_path;
mod taken_call;
mod transfer;
mod upload;

ghost use Rattle.std.specs.Prelude.{◌≡◌, ◌≢◌, ◌≤◌, ◌<◌, ◌^◌, max, ℕ, false, true, ◌∷◌, [], length};
ghost use Rattle.std.specs.Prelude.{Ok, Err, None, IfNone, IfOk, IfSome, IsOk, OnOk, OnErr, is_ok};
ghost use Rattle.std.specs.Option.{option_map};
ghost use Rattle.coap_block.specs.Sizes.{usual_sizes};
ghost use Rattle.coap_layer.specs.Machine.State.{usual};
ghost use Rattle.coap_client.specs.declared.refusals.CallRefusal.TheVariants as refusals;
ghost use Rattle.coap_client.specs.Object.CallShown.{shown_request};
ghost use Rattle.coap_client.specs.Object.CallAnswers.{refusal_in};
ghost use Rattle.coap_client.specs.Queue.{call_answer, observe_answer};
ghost use Rattle.coap_client.specs.Led.{Step, Led, fresh_state};
ghost use Rattle.coap_client.specs.Makes.{Fed, Forgotten, Makes, Ticked};
ghost use Rattle.coap_client.specs.Trace.{Calls, Observes, Cancels};
ghost use Rattle.coap_client.specs.Trace.{NextOut, NextReport, Asked};
ghost use Rattle.coap_client.specs.Object.Shown.{number_of, shown_asked, shown_reported};
ghost use Rattle.coap_client.specs.Turns.Due.{TicksDo, latest};
ghost use Rattle.coap_client.specs.Turns.Quiet.{IsIdle, TellsNothing};
ghost use Rattle.coap_client.specs.Turns.Work.{work};

use crate::client::due::begins_from;
use crate::client::event::happen;
use crate::client::held::Held;
use crate::client::parts::{Now, Parts};
use crate::client::request_options::{is_long_path, is_long_request};
use crate::{CallRefusal, CancelRefusal};
use coap_exchange::Asker;
use coap_layer::{Datagram, Setup};
use coap_types::{BodyLimit, Endpoint, Moment, Path, Request, Szx, earlier};
pub use last_request::SentRequest;
pub use load::ClientLoad;
pub use report::{CallId, Fetched, Report};
use std::alloc::{AllocError, Allocator};
use std::hash::{BuildHasher, BuildHasherDefault, FoldHasher};
use std::marker::Model;

/// A client of one server (RFC 7252, section 5; RFC 7641; RFC 7959). One operation runs at a time.
///
/// After each call take `next_out` and `next_report` until None; a moment before the last one counts
/// as the last.
#[derive(Drop)]
pub struct Client<A: Allocator + Copy, H: BuildHasher = BuildHasherDefault<FoldHasher>> {
    parts: Parts<A, H>,
}

impl<A: Allocator + Copy, H: BuildHasher> Model for Client<A, H> {
    ghost use Rattle.coap_client.specs.Led.{State};
    ghost use Rattle.coap_client.specs.Object.Happens.{WasLed};
    ghost use Rattle.coap_client.specs.Object.Held.{seen};

    ghost Value = { State };

    ghost view = { λ c. seen c.parts };

    ghost invariant = { λ c. WasLed (seen c.parts) };
}

impl<A: Allocator + Copy> Client<A, BuildHasherDefault<FoldHasher>> {
    /// A client to which nothing has happened. It sends and takes bodies of at most `DEFAULT_BODY_LIMIT`
    /// bytes, in blocks of at most that size. The word picks the first token and the first Message ID.
    pub fn new(alloc: A, server: Endpoint, szx: Szx, word: u64) -> Self
        // To a `new` client no call has led, with the usual limit of a body.
        ensures led { Led server (usual_sizes szx) (usual word) [] result }
        // A `new` client is in the state in which no call was made, by its server, block size and word.
        ensures start { result ≡ fresh_state server (usual_sizes szx) (usual word) }
    {
        Client::with_hasher(alloc, server, szx, word, BuildHasherDefault::new())
    }
}

impl<A: Allocator + Copy, H: BuildHasher> Client<A, H> {
    /// The same, with a hasher for the messages that are remembered.
    pub fn with_hasher(alloc: A, server: Endpoint, szx: Szx, word: u64, hasher: H) -> Self
        // To a client of `with_hasher` no call has led.
        ensures led { Led server (usual_sizes szx) (usual word) [] result }
        // A client of `with_hasher` is in the state in which no call was made, whatever the hasher.
        ensures start { result ≡ fresh_state server (usual_sizes szx) (usual word) }
    {
        Client::with_limit(alloc, server, szx, word, BodyLimit::default(), hasher)
    }

    /// The same, with bodies of at most that limit (RFC 7959, section 7).
    pub fn with_limit(
        alloc: A,
        server: Endpoint,
        szx: Szx,
        word: u64,
        limit: BodyLimit,
        hasher: H,
    ) -> Self
        // To a client of `with_limit` no call has led, with that limit of a body.
        ensures led { Led server (record { szx = szx; limit = limit }) (usual word) [] result }
        // A client of `with_limit` is in the state in which no call was made, with that limit.
        ensures start { result ≡ fresh_state server (record { szx = szx; limit = limit }) (usual word) }
    {
        Client::with_setup(alloc, server, szx, limit, Setup::new(word), hasher)
    }

    /// The same, with so many messages that are remembered at most (RFC 7252, section 4.5).
    pub fn with_setup(
        alloc: A,
        server: Endpoint,
        szx: Szx,
        limit: BodyLimit,
        setup: Setup,
        hasher: H,
    ) -> Self
        // To a client of `with_setup` no call has led, with that limit, and as many messages can be remembered as were
        // chosen.
        ensures led { Led server (record { szx = szx; limit = limit }) setup [] result }
        // A client of `with_setup` is in the state in which no call was made, by its word and number of places.
        ensures start { result ≡ fresh_state server (record { szx = szx; limit = limit }) setup }
    {
        Client {
            parts: Parts {
                asker: Asker::with_setup(alloc, server, setup, hasher),
                held: Held::new(alloc, szx, limit),
            },
        }
    }

    /// Takes a datagram that arrived at this moment, in milliseconds (RFC 7252, sections 4.2 and 5.3.2).
    /// The word picks the initial timeout of what is sent. After an `Err` the client is as before.
    pub fn feed(
        &mut self,
        now: Moment,
        from: Endpoint,
        bytes: &[u8],
        word: u64,
    ) -> Result<(), AllocError>
        // What a datagram makes of the client is a step of its machine.
        ensures step { OnOk result (Makes self.old (Fed now.0 from bytes.now word) self.new) }
        // A datagram that is refused memory leaves the client as it was.
        ensures err { OnErr result (self.new ≡ self.old) }
        // Where nothing is sent, kept or told, as for an acknowledgement that matches nothing, it takes no memory.
        ensures quiet { TellsNothing self.old now.0 from bytes.now → IsOk result }
    {
        let at = self.parts.held.clock.later(now);
        let event = self.parts.asker.receive(at, from, bytes)?;
        let done = happen(&mut self.parts, Now { at, word }, event);
        if done.is_err() {
            self.parts.asker.undo();
        }
        done
    }

    /// The first moment at which a tick would do something, unless something is handed in before, and
    /// no earlier than the last that was handed in; None where it never would. Nothing changes. It
    /// takes no memory.
    pub fn due(&self) -> Option<Moment>
        // Where the client tells no moment, no later tick does anything unless something is handed in.
        ensures none { IfNone result ((now : ℕ) → now < 2 ^ 64 → TicksDo false self.now now) }
        // No tick of the client before the moment that is told does anything.
        ensures some { IfSome result (λ at. (now : ℕ) → max (latest self.now) now < at.0 → TicksDo false self.now now) }
        // A tick of the client at the moment that is told does something.
        ensures does { IfSome result (λ at. TicksDo true self.now at.0) }
        // The moment that the client tells is not before its latest.
        ensures from { IfSome result (λ at. latest self.now ≤ at.0) }
    {
        let from = self.parts.asker.clock().later(self.parts.held.clock);
        earlier(
            self.parts.asker.due(from),
            begins_from(&self.parts.held, from),
        )
    }

    /// Takes a request, which starts at a later tick: its number, or why it is not taken. The lowest
    /// number of a refusal is answered, and `Memory` only where none other holds (the bounds are a
    /// profile). After `Memory` the client is as before; after another refusal its moment has counted
    /// alone.
    ///
    /// ```
    /// let id = client.call(now, request)?;
    /// while client.tick(now, word)? {}
    /// while let Some(datagram) = client.next_out() {
    ///     send(datagram.to(), datagram.bytes());
    /// }
    /// // .. and what arrives is fed, until
    /// if let Some((of, Report::Body(fetched))) = client.next_report() {
    ///     // of == id
    ///     print(fetched.body.as_slice());
    /// }
    /// ```
    pub fn call(&mut self, now: Moment, request: Request<A>) -> Result<CallId, CallRefusal>
        // The number of a call, or why it is refused, and what that leaves, is a step of the client's machine.
        ensures step { result ≢ Err refusals.Memory
            → Step self.old (Calls now.0 (shown_request request) (number_of result)) self.new }
        // A call that is refused memory leaves the client as it was.
        ensures memory { result ≡ Err refusals.Memory → self.new ≡ self.old }
        // Where it is refused for another reason, it takes no memory.
        ensures refused { is_ok (call_answer self.old.own (shown_request request)) ≡ false
            → result ≢ Err refusals.Memory }
    {
        let long = is_long_request(&request);
        queue::call(&mut self.parts.held, now, request, long)
    }

    /// Takes an observation, whose registration starts at a later tick (RFC 7641, section 3.1): its
    /// number, or why it is not taken, as `call` says it.
    pub fn observe(&mut self, now: Moment, path: Path<A>) -> Result<CallId, CallRefusal>
        // The number of an observation, or why it is refused, and what that leaves, is a step of the client's machine.
        ensures step { result ≢ Err refusals.Memory
            → Step self.old (Observes now.0 path (number_of result)) self.new }
        // An observation that is refused memory leaves the client as it was.
        ensures memory { result ≡ Err refusals.Memory → self.new ≡ self.old }
        // An observation that is refused for another reason takes no memory.
        ensures refused { is_ok (observe_answer self.old.own path) ≡ false → result ≢ Err refusals.Memory }
    {
        let long = is_long_path(&path);
        queue::observe(&mut self.parts.held, now, path, long)
    }

    /// Takes the cancel of an observation, which starts at a later tick (RFC 7641, section 3.6). It
    /// takes no memory.
    pub fn cancel(&mut self, now: Moment, id: CallId) -> Result<(), CancelRefusal>
        // Whether a cancel is taken, and what that leaves, is a step of the client's machine.
        ensures step { Step self.old (Cancels now.0 id.0 (refusal_in result)) self.new }
    {
        queue::cancel(&mut self.parts.held, now, id)
    }

    /// Forgets an observation, without a message: a later notification is rejected, which ends it at
    /// the server, and no report of it comes later (RFC 7641, section 3.6). False where it is not live,
    /// or is being cancelled. It takes no memory.
    pub fn forget(&mut self, id: CallId) -> bool
        // Whether there was such an observation, and what its end leaves, is a step of the client's machine.
        ensures step { Makes self.old (Forgotten id.0 result) self.new }
    {
        end::forget(&mut self.parts, id)
    }

    /// Does the first that is due at this moment, in milliseconds: an exchange that failed, a
    /// retransmission, the end of a wait, the start of a fetch or of what waits; whether something was
    /// (RFC 7252, sections 4.2, 4.7 and 5.2.2). The word picks the initial timeout of what is sent.
    /// Call it until it answers false: it does at most as often as much is due. After an `Err` the
    /// client is as before.
    pub fn tick(&mut self, now: Moment, word: u64) -> Result<bool, AllocError>
        // Whether a tick did something, and what that leaves, is a step of the client's machine.
        ensures step { IfOk result (λ did. Makes self.old (Ticked now.0 word did) self.new) }
        // Each tick of a client that does something leaves less to be done at its moment.
        ensures less { result ≡ Ok true → work self.new now.0 < work self.old now.0 }
        // A tick that is refused memory leaves the client as it was.
        ensures err { OnErr result (self.new ≡ self.old) }
        // Where nothing is due and nothing begins, it takes no memory.
        ensures quiet { IsIdle self.old now.0 → IsOk result }
    {
        scheduler::tick(&mut self.parts, now, word)
    }

    /// The request that the last `feed` or `tick` sent for the first time. It takes no memory.
    pub fn asked(&self) -> Option<SentRequest>
        // Which request the last datagram or tick sent for the first time is told as the machine has it.
        ensures step { Step self.now (Asked (shown_asked result)) self.now }
    {
        last_request::asked(&self.parts.held)
    }

    /// The datagram that is to be sent next. It takes no memory.
    pub fn next_out(&mut self) -> Option<Datagram<A>>
        // Which datagram the client gives out, and what that leaves, is a step of its machine.
        ensures step { Step self.old (NextOut result) self.new }
        // The datagram that the client gives out is the first that waited.
        ensures some { IfSome result (λ datagram. self.old.layer.layer.queue ≡ datagram ∷ self.new.layer.layer.queue) }
        // The client gives out none only where none waited, and nothing changes.
        ensures none { IfNone result ((self.old.layer.layer.queue ≡ []) × (self.new ≡ self.old)) }
        // No more datagrams wait at a client than a list in memory holds.
        ensures few { length self.old.layer.layer.queue < 2 ^ 64 }
    {
        self.parts.asker.next_out()
    }

    /// The report that is to be taken next. It takes no memory.
    pub fn next_report(&mut self) -> Option<(CallId, Report<A>)>
        // Which report is taken, and what that leaves, is a step of the client's machine.
        ensures step { Step self.old (NextReport (option_map shown_reported result)) self.new }
        // Each report that is taken leaves one less to be taken.
        ensures some { IfSome result (λ report. self.old.own.reports ≡ shown_reported report ∷ self.new.own.reports) }
        // No report is given only where none waited, and nothing changes.
        ensures none { IfNone result ((self.old.own.reports ≡ []) × (self.new ≡ self.old)) }
        // No more reports wait than a list in memory holds.
        ensures few { length self.old.own.reports < 2 ^ 64 }
    {
        let _waiting = self.parts.held.reports.len();
        self.parts.held.reports.pop_front()
    }
}
