//! The client's side of request and response: one exchange at a time (RFC 7252, sections 4.7 and 5).
mod load;

ghost use Rattle.std.specs.Prelude.{◌≡◌, ◌≢◌, ◌≤◌, ◌<◌, ◌^◌, length, IfSome, Bool, false, [], None, Some, Err, IsOk};
ghost use Rattle.std.specs.Prelude.{IfOk, OnOk, OnErr, IsSome, IfNone, max, true, ℕ, List};
ghost use Rattle.coap_types.specs.declared.endpoint.Endpoint.{Endpoint as EndpointSpec};
ghost use Rattle.coap_types.specs.FirstMoment.{IsFirstMoment};
ghost use Rattle.coap_exchange.specs.Machine.Rests.{AskerRests, AskerTurns, has_turn};
ghost use Rattle.coap_types.specs.declared.token.TheConstants.{MAX_TOKEN_LEN as max_token_len};
ghost use Rattle.coap_layer.specs.Machine.State.{answer_of, copies, made, usual};
ghost use Rattle.coap_layer.specs.Trace as below;
ghost use Rattle.coap_layer.specs.declared.setup.Setup.{Setup as SetupSpec};
ghost use Rattle.coap_layer.specs.Machine.Ups.{IsQuiet};
ghost use Rattle.coap_exchange.specs.declared.asker.AskRefusal.TheVariants as refusals;
ghost use Rattle.coap_exchange.specs.declared.matching.Opening.TheVariants as openings;
ghost use Rattle.coap_exchange.specs.AskerFollows.{message_told};
ghost use Rattle.coap_exchange.specs.AskerLaw.{Led, Step, fresh_state};
ghost use Rattle.coap_exchange.specs.AskerRequests.{opening_of};
ghost use Rattle.coap_exchange.specs.Machine.AskerShown.{IsAskable};
ghost use Rattle.coap_exchange.specs.AskerTrace.{Call, Ask as Asks, Receive, Ticks, Keep, Release, Take};
ghost use Rattle.coap_exchange.specs.RefusalNumbers.{ask_refusal_number};

use crate::arrivals::{
    act, id_in, send_refusal, spent_refusal, token_for, told, turn_of, unless_ended, verdict,
};
use crate::held::{Held, after_arrival, waited_from};
use crate::matching::{Opening, judge_ask};
use crate::token_source::is_spent;
use coap_codec::View;
use coap_layer::{Content, Datagram, Layer, Setup};
use coap_types::{Endpoint, Id, Method, Moment, Opt, Token, earlier, reveal};
use std::alloc::{AllocError, Allocator};
use std::hash::{BuildHasher, BuildHasherDefault, FoldHasher};
use std::marker::Model;

/// What the client's exchange came to, or what came beside it (RFC 7252, section 5.3).
#[derive(Drop)]
pub enum Event<'a> {
    /// The response to the request of the exchange, which is over.
    Answer(View<'a>),
    /// A response with a kept token: a notification (RFC 7641, section 3.2).
    Notice(View<'a>),
    /// The request was not acknowledged: its transmission failed (RFC 7252, section 4.2).
    Timeout,
    /// The request was rejected by a Reset (section 4.2).
    Reset,
    /// The request was acknowledged, and no response came within EXCHANGE_LIFETIME (section 5.2.2).
    NoResponse,
}

/// What a tick of the client did.
#[derive(Drop)]
pub enum Turn {
    /// Nothing was due.
    Idle,
    /// The request was sent again.
    Copied,
    /// The exchange is over.
    End(Event<'static>),
}

/// Why a request was not sent.
#[derive(Clone, Copy, Debug, PartialEq, Eq)]
pub enum AskRefusal {
    /// 1: an exchange runs (NSTART is 1: RFC 7252, section 4.7).
    Running,
    /// 2: no Message ID is free (section 4.4).
    NoIds,
    /// 3: the allocator refused.
    Memory,
    /// 4: each token was given once (section 5.3.1).
    TokensSpent,
}

impl AskRefusal {
    /// The number of the refusal, 1 to 4, in the order of the variants.
    pub fn number(self) -> u8
        // The number of a request's refusal is its place among the four.
        ensures { result ≡ ask_refusal_number self }
    {
        match self {
            AskRefusal::Running => 1,
            AskRefusal::NoIds => 2,
            AskRefusal::Memory => 3,
            AskRefusal::TokensSpent => 4,
        }
    }
}

/// The exchange that runs (RFC 7252, section 5).
#[derive(Drop)]
pub struct Exchange {
    /// The token of its request.
    pub token: Token,
    /// The Message ID of its request.
    pub id: Id,
    /// The moment of the Empty acknowledgement of its request, if one came.
    pub acked: Option<Moment>,
    /// It cancels an observation (RFC 7641, section 3.6).
    pub cancel: bool,
}

/// A request (RFC 7252, section 5.1): at most 1,152 bytes as a message with a token of 8 bytes.
#[derive(Drop)]
pub struct Ask<'a> {
    /// What is asked for.
    pub method: Method,
    /// For the cancel of an observation, the token of that (RFC 7641, section 3.6); else None.
    pub token: Option<&'a Token>,
    /// The options, in the order of their numbers.
    pub options: &'a [Opt<'a>],
    /// The payload; empty where there is none.
    pub payload: &'a [u8],
}

impl<'a> Model for Ask<'a> {
    ghost use Rattle.std.specs.Option.{option_map};
    ghost use Rattle.coap_types.specs.CoapOption.{options_of};
    ghost use Rattle.coap_types.specs.MethodCode.{method_code};
    ghost use Rattle.coap_exchange.specs.AskerTrace.{Request};

    ghost Value = { Request };

    ghost view = { λ a. record {
      code = (method_code a.method).0;
      token = option_map (λ t. t.now) a.token;
      options = options_of a.options.now;
      payload = a.payload.now;
    } };
}

/// The client's side of the exchanges with one server (RFC 7252, section 5).
///
/// It runs one exchange at a time. After each call take `next_out` until None; a moment before the
/// last one counts as the last.
#[derive(Drop)]
pub struct Asker<A: Allocator + Copy, S: BuildHasher = BuildHasherDefault<FoldHasher>> {
    layer: Layer<A, S>,
    server: Endpoint,
    word: u64,
    held: Held,
    // What the last input found.
    before: Held,
}

impl<A: Allocator + Copy, S: BuildHasher> Model for Asker<A, S> {
    ghost use Rattle.coap_exchange.specs.Machine.AskerShown.{Shown, state_of, before_of};

    ghost Value = { Shown };

    ghost view = { λ a. record {
      state = state_of a.layer.state a.server a.word a.held;
      before = before_of a.layer.before a.server a.word a.before;
      has_room = a.layer.has_room;
    } };
}

impl<A: Allocator + Copy> Asker<A, BuildHasherDefault<FoldHasher>> {
    /// A client's side to which nothing has happened. The word picks the first token and the first
    /// Message ID.
    pub fn new(alloc: A, server: Endpoint, word: u64) -> Self
        // A `new` asker is in the state in which no call was made, by its server and its word.
        ensures start { result.state ≡ fresh_state server (usual word) }
        // A `new` asker has no input to take back.
        ensures before { result.before ≡ None }
    {
        Asker::with_hasher(alloc, server, word, BuildHasherDefault::new())
    }
}

impl<A: Allocator + Copy, S: BuildHasher> Asker<A, S> {
    /// The same, with a hasher for the messages that are remembered.
    pub fn with_hasher(alloc: A, server: Endpoint, word: u64, hasher: S) -> Self
        // An asker of `with_hasher` is in the state in which no call was made, whatever the hasher.
        ensures start { result.state ≡ fresh_state server (usual word) }
        // An asker of `with_hasher` has no input to take back.
        ensures before { result.before ≡ None }
    {
        Asker::with_setup(alloc, server, Setup::new(word), hasher)
    }

    /// The same, with so many messages that are remembered at most.
    pub fn with_setup(alloc: A, server: Endpoint, setup: Setup, hasher: S) -> Self
        // An asker of `with_setup` is in the state in which no call was made, by its word and number of places.
        ensures start { result.state ≡ fresh_state server setup }
        // An asker of `with_setup` has no input to take back.
        ensures before { result.before ≡ None }
    {
        let word = setup.word;
        Asker {
            layer: Layer::with_setup(alloc, setup, hasher),
            server,
            word,
            held: Held::new(),
            before: Held::new(),
        }
    }

    /// The last moment that counted.
    pub fn clock(&self) -> Moment
        // The latest moment that counted is the one of the asker's own clock.
        ensures { result.0 ≡ self.now.state.own.clock }
    {
        self.layer.clock()
    }

    /// Sends a request, and answers its token (RFC 7252, sections 4.2 and 5.3.1): that of the
    /// observation for a cancel, else one that was never given. The word picks the initial timeout.
    /// Where several refusals hold, the lowest number is answered, and `Memory` only where none
    /// other does.
    pub fn ask(&mut self, now: Moment, ask: &Ask<'_>, word: u64) -> Result<Token, AskRefusal>
        requires { IsAskable ask.now }
        // The token of a request, or why it is refused, and what that leaves, is a step of the asker's machine.
        ensures step { result ≢ Err refusals.Memory → (answer : below.Answer)
            × Step self.old.state (Asks now.0 ask.now word answer result) self.new.state }
        // The token that a request gets has at most 8 bytes.
        ensures few { IfOk result (λ token. length token ≤ max_token_len) }
        // A request is taken back with the last input.
        ensures before { self.new.before ≡ self.old.before }
        // A request that is refused memory leaves the asker as it was.
        ensures memory { result ≡ Err refusals.Memory → self.new ≡ self.old }
        // A request that is refused before the layer is asked takes no memory.
        ensures opens { opening_of self.old.state.own ask.now ≢ openings.Sends → result ≢ Err refusals.Memory }
        // With room for a message a request is not refused memory.
        ensures room { self.old.has_room ≡ true → result ≢ Err refusals.Memory }
        // Where the layer has no room for a CON to the server, the refusal takes no memory.
        ensures quiet { answer_of self.old.state.layer (max self.old.state.own.clock now.0)
            (below.Room self.old.state.own.server) ≡ below.Is false → result ≢ Err refusals.Memory }
    {
        let running = self.held.running.is_some();
        let spent = is_spent(self.held.given);
        match judge_ask(running, spent, ask.token.is_some()) {
            Opening::Running => {
                self.layer.pass(now);
                Err(AskRefusal::Running)
            }
            Opening::Spent => Err(spent_refusal(self.layer.is_free(now))),
            Opening::Sends => self.send(now, ask, word),
        }
    }

    // Sends a request, which may be sent.
    fn send(&mut self, now: Moment, ask: &Ask<'_>, word: u64) -> Result<Token, AskRefusal>
        requires askable { IsAskable ask.now }
        requires opening { opening_of self.old.state.own ask.now ≡ openings.Sends }
        ensures step { result ≢ Err refusals.Memory → (answer : below.Answer)
            × Step self.old.state (Asks now.0 ask.now word answer result) self.new.state }
        ensures few { IfOk result (λ token. length token ≤ max_token_len) }
        ensures before { self.new.before ≡ self.old.before }
        ensures memory { result ≡ Err refusals.Memory → self.new ≡ self.old }
        ensures room { self.old.has_room ≡ true → result ≢ Err refusals.Memory }
        ensures quiet { answer_of self.old.state.layer (max self.old.state.own.clock now.0)
            (below.Room self.old.state.own.server) ≡ below.Is false → result ≢ Err refusals.Memory }
    {
        let token = token_for(self.word, self.held.given, ask.token);
        reveal(&token);
        let content = Content {
            code: ask.method.code(),
            token: &token,
            options: ask.options,
            payload: ask.payload,
        };
        match self.layer.confirm(now, self.server, &content, word) {
            Ok(id) => {
                self.held.open(token.copy(), id, ask.token.is_some());
                Ok(token)
            }
            Err(refusal) => Err(send_refusal(refusal)),
        }
    }

    /// Takes a datagram that arrived: the response to the request of the exchange, a notification,
    /// or a Reset is told, and what is to be acknowledged or rejected is (RFC 7252, sections 4.2
    /// and 5.3.2).
    pub fn receive<'d>(
        &mut self,
        now: Moment,
        from: Endpoint,
        bytes: &'d [u8],
    ) -> Result<Option<Event<'d>>, AllocError>
        // What becomes of an arrival, and what that leaves, is a step of the asker's machine.
        ensures step { IfOk result (λ event. (up : below.Answer) × (settled : Bool)
            × Step self.old.state (Receive now.0 from bytes.now up settled event) self.new.state) }
        // The token of a response that is told has at most 8 bytes.
        ensures few { IfOk result (λ event. IfSome (message_told event) (λ m. length m.token ≤ max_token_len)) }
        // An arrival at the asker can be taken back.
        ensures before { OnOk result (self.new.before ≡ Some self.old.state) }
        // An arrival that is refused memory leaves the asker as it was.
        ensures err { OnErr result (self.new ≡ self.old) }
        // An arrival at the asker for which the layer sends nothing and hands nothing up takes no memory.
        ensures quiet { IsQuiet (made self.old.state.layer now.0 (below.Receive from bytes.now)) → IsOk result }
    {
        let up = self.layer.receive(now, from, bytes)?;
        let verdict = verdict(self.server, &self.held, from, &up);
        let at = self.layer.clock();
        let id = id_in(&up);
        act(
            &mut self.layer,
            self.server,
            &self.held.running,
            from,
            id,
            verdict,
        );
        self.before.copy_from(&self.held);
        let running = self.held.running.take();
        self.held.running = after_arrival(at, verdict, running);
        Ok(told(verdict, up))
    }

    /// Does the first that is due: the failure of the request, a retransmission, the end of the wait
    /// for a response (RFC 7252, sections 4.2 and 5.2.2).
    pub fn tick(&mut self, now: Moment) -> Result<Turn, AllocError>
        // What a tick does, and what that leaves, is a step of the asker's machine.
        ensures step { IfOk result (λ turn. (answer : below.Answer)
            × Step self.old.state (Ticks now.0 answer turn) self.new.state) }
        // A tick of the asker can be taken back.
        ensures before { OnOk result (self.new.before ≡ Some self.old.state) }
        // A tick that is refused memory leaves the asker as it was.
        ensures err { OnErr result (self.new ≡ self.old) }
        // A tick of the asker at which no copy is due takes no memory.
        ensures quiet { copies (max self.old.state.own.clock now.0) self.old.state.layer.open_cons ≡ [] → IsOk result }
    {
        let tick = self.layer.tick(now)?;
        let turn = turn_of(self.server, &self.held, self.layer.clock(), tick);
        self.before.copy_from(&self.held);
        let running = self.held.running.take();
        self.held.running = unless_ended(&turn, running);
        Ok(turn)
    }

    /// The first moment, from this one on, at which `tick` would do something, unless something is handed in before;
    /// None where it never would. A moment before the last one counts as the last. Nothing changes: the moment doesn't
    /// count. It takes no memory.
    pub fn due(&self, now: Moment) -> Option<Moment>
        // Where the asker tells no moment, no later tick does anything unless something is handed in.
        ensures none { IfNone result ((later : ℕ) → now.0 ≤ later → later < 2 ^ 64
            → AskerRests self.now.state later) }
        // No tick of the asker before the moment that is told does anything.
        ensures some { IfSome result (λ at. (later : ℕ) → now.0 ≤ later → max self.now.state.own.clock later < at.0
            → AskerRests self.now.state later) }
        // A tick of the asker at the moment that is told does something.
        ensures does { IfSome result (λ at. (server : EndpointSpec) (setup : SetupSpec) (t : List Call)
            → Led server setup t self.now.state → AskerTurns self.now.state at.0) }
        // The moment that the asker tells is not before its clock, nor before the one that was handed in.
        ensures from { IfSome result (λ at. max self.now.state.own.clock now.0 ≤ at.0) }
        // The moment that the asker tells is the first of what is outstanding and of its wait.
        ensures first { IsFirstMoment (has_turn self.now.state) (max self.now.state.own.clock now.0) result }
    {
        let from = self.layer.clock().later(now);
        earlier(self.layer.due(from), waited_from(&self.held.running, from))
    }

    /// Keeps the token of an observation, so that its notifications are told (RFC 7641, section
    /// 3.2); false where 16 others are kept. It takes no memory.
    pub fn keep(&mut self, token: &Token) -> bool
        // Whether a token is kept, and what that leaves, is a step of the asker's machine.
        ensures step { Step self.old.state (Keep token.now result) self.new.state }
        // That a token is kept is taken back with the last input.
        ensures before { self.new.before ≡ self.old.before }
    {
        self.held.kept.keep(token)
    }

    /// Keeps the token no more, so that its notifications are rejected; false where it isn't kept.
    /// It takes no memory.
    pub fn release(&mut self, token: &Token) -> bool
        // Whether a token was kept, and what its release leaves, is a step of the asker's machine.
        ensures step { Step self.old.state (Release token.now result) self.new.state }
        // That a token is released is taken back with the last input.
        ensures before { self.new.before ≡ self.old.before }
    {
        self.held.kept.release(token)
    }

    /// The datagram that is to be sent next. After it, nothing can be taken back. It takes no
    /// memory.
    pub fn next_out(&mut self) -> Option<Datagram<A>>
        // Which datagram the asker gives out, and what that leaves, is a step of its machine.
        ensures step { Step self.old.state (Take result) self.new.state }
        // What the asker gave out is not taken back.
        ensures before { self.new.before ≡ None }
        // No more datagrams wait at an asker than a list in memory holds.
        ensures few { length self.old.state.layer.queue < 2 ^ 64 }
    {
        self.layer.next_out()
    }

    /// Takes back the last `receive` or `tick` that was not refused memory, and every call since.
    /// It takes no memory.
    pub fn undo(&mut self)
        requires { IsSome self.old.before }
        // The last input is taken back: the asker is as it was before it.
        ensures back { self.old.before ≡ Some self.new.state }
        // After that the asker has no input to take back.
        ensures spent { self.new.before ≡ None }
    {
        self.layer.undo();
        self.held.copy_from(&self.before);
    }
}
