//! What follows from the law of a server, for its whole history.
ghost use Rattle.std.specs.Prelude.{◌≡◌, ◌↔◌, ℕ, List, [], ◌∷◌, ◌++◌};
ghost use Rattle.coap_server_laws.specs.ServerHolds.{ServerHolds};
ghost use Rattle.coap_server_laws.specs.Follows.Begins.{AllBeginNext, FirstIsNotified, NoneLeft};
ghost use Rattle.coap_server_laws.specs.Follows.Continues.{AllContinuesFit};
ghost use Rattle.coap_server_laws.specs.Follows.Current.{AreCurrent};
ghost use Rattle.coap_server_laws.specs.Follows.Delayed.{DelaysStay};
ghost use Rattle.coap_server_laws.specs.Follows.GoesOut.{AllGoOut};
ghost use Rattle.coap_server_laws.specs.Follows.Latest.{AreLatest};
ghost use Rattle.coap_server_laws.specs.Follows.Leaves.{AllLeave};
ghost use Rattle.coap_server_laws.specs.Follows.MadeHere.{AllMadeHere};
ghost use Rattle.coap_server_laws.specs.Follows.Marks.{AllMark, StayDue};
ghost use Rattle.coap_server_laws.specs.Follows.Registered.{AllRegister};
ghost use Rattle.coap_server_laws.specs.Follows.Recognised.{AllRecognised, BodiesShort};
ghost use Rattle.coap_server_laws.specs.Follows.Refusals.{NeverServed, RefusesUnknown};
ghost use Rattle.coap_server_laws.specs.Follows.Refuses.{AllRefused};
ghost use Rattle.coap_server_laws.specs.Follows.Rejects.{RejectsSo};
ghost use Rattle.coap_server_laws.specs.Follows.SentAs.{AllSentSo};
ghost use Rattle.coap_server.specs.Follows.Exact.{IsExact};
ghost use Rattle.coap_server_laws.specs.Examples.Observation as example;
ghost use Rattle.coap_server_laws.specs.Examples.Upload as upload_example;
ghost use Rattle.coap_exchange.specs.AnswererLaw as below;
ghost use Rattle.coap_types.specs.Past.{Always};
ghost use Rattle.coap_layer.specs.Channel.{RepliesSo};
ghost use Rattle.coap_layer.specs.Follows.{HandedUpOnce};
ghost use Rattle.coap_layer.specs.Rows.{LayerLaw};
ghost use Rattle.coap_layer.specs.Machine.State.{usual};
ghost use Rattle.coap_layer.specs.declared.setup.Setup.{Setup};
ghost use Rattle.coap_resource.specs.Limits.{Limits};
ghost use Rattle.coap_server_laws.specs.Follows.HandedUpAsOften.{Counted};
ghost use Rattle.coap_server.specs.Follows.Tags.{AreStamped, OneTag};
ghost use Rattle.coap_server.specs.Follows.Holds.{AllServed, HoldsChanges};
ghost use Rattle.coap_server.specs.Law.{ServerLaw, layer_of, lower_of, own_of};
ghost use Rattle.coap_server.specs.Led.{Led, State, Step, fresh_state, state_left};
ghost use Rattle.coap_server.specs.Follows.Brings.{AreHandedUp, BlocksCome};
ghost use Rattle.coap_server.specs.Follows.Serves.{ServedOnce};
ghost use Rattle.coap_server_laws.specs.Follows.Reads.{VerdictsRead};
ghost use Rattle.coap_server_laws.specs.Follows.Gives.{NoneContinues, SendsResponses};
ghost use Rattle.coap_server.specs.Follows.Rests.{ComesToRest, TicksEnd};
ghost use Rattle.coap_server.specs.Follows.Observes.{AreObservers, EndsObservation, EndsOnNotice};
ghost use Rattle.coap_server.specs.Follows.Observes.{EndsOnRequest, EndsSo};
ghost use Rattle.coap_server_laws.specs.Follows.Outs.{GivesInOrder};
ghost use Rattle.coap_server_laws.specs.Follows.Shows.{NoticesShow, ShowsHeld};
ghost use Rattle.coap_server_laws.specs.Follows.Silent.{ForgetsTheSilent, StaysSilent};
ghost use Rattle.coap_server_laws.specs.Follows.Tokens.{ShortTokens};
ghost use Rattle.coap_server_laws.specs.Follows.Table.{AllMethods, AllUploads, VerdictsAsk};
ghost use Rattle.coap_server.specs.Follows.Tells.{Follows};
ghost use Rattle.coap_server_laws.specs.Follows.Told.{AcksArrive, AllServePairs, AllTellSent, AreUnder};
ghost use Rattle.coap_server_laws.specs.Follows.GoesOn.{GoesOn};
ghost use Rattle.coap_server.specs.Follows.Attended.{AllAttended, AllHandedOn, FirstIsAnswered};
ghost use Rattle.coap_server.specs.Trace.{Call};
ghost use Rattle.coap_server_laws.specs.Examples.ObserverTold.{IsTold};
ghost use Rattle.coap_server_laws.specs.Follows.Ways.{EndsOnReset, PlainsStay, WaysAre};
ghost use Rattle.coap_server.specs.Follows.Waits.{ReadyAreServed, WaitOn, WaitsAsDeferred};

/// What leads to the state of a server stands in its whole law, uploads in blocks and observers among it, and what
/// follows from that.
pub fn server_law()
    // No call at all leads to the first state of a server, whose store is empty.
    ensures start { (limits : Limits) (szx : ℕ) (setup : Setup)
        → Led limits szx setup [] (fresh_state limits szx setup) }
    // A step of a server lengthens the calls that led to the state before it.
    ensures step { (limits : Limits) (szx : ℕ) (setup : Setup) (t : List Call) (c : Call) (old new : State)
        → Led limits szx setup t old
        → Step old c new → Led limits szx setup (c ∷ t) new }
    // What it keeps of its exchanges is what their calls add up to.
    ensures exchanges { (limits : Limits) (szx : ℕ) (t : List Call)
        → (own_of limits szx t).exchanges ≡ below.own_of (lower_of limits szx t) }
    // A history that leads to a server stands in the server's law.
    ensures law { (limits : Limits) (szx : ℕ) (setup : Setup) (t : List Call) (s : State) → Led limits szx setup t s
        → ServerLaw limits szx setup t }
    // The calls of the layer beneath a server stand in its law (RFC 7252, section 4).
    ensures layer { ServerHolds (λ limits szx setup t. LayerLaw setup (layer_of limits szx setup t)) }
    // The calls of a server before some calls stand in the law too.
    ensures back { (limits : Limits) (szx : ℕ) (setup : Setup) (calls t : List Call)
        → ServerLaw limits szx setup (calls ++ t)
        → ServerLaw limits szx setup t }
    // The law of a server leaves each call one answer.
    ensures exact { (limits : Limits) (szx : ℕ) (setup : Setup) (past : List Call) → IsExact limits szx setup past }
    // It replies at once: with the Reset of a response, or the acknowledgement of a CON, which may carry the response
    // to it (RFC 7252, sections 4.2 and 5.2.1).
    ensures replies { ServerHolds (λ limits szx setup t. Always RepliesSo (layer_of limits szx setup t)) }
    // A message is handed up once in EXCHANGE_LIFETIME at a server, too (RFC 7252, section 4.5).
    ensures once { ServerHolds (λ limits szx setup t. HandedUpOnce (layer_of limits szx setup t)) }
    // What is served was handed up, and asks what came, with the whole body of its upload (RFC 7252, section 5.2; RFC
    // 7959, section 2.5).
    ensures handed { ServerHolds AreHandedUp }
    // A block that is taken came in a request that was handed up.
    ensures blocks { ServerHolds BlocksCome }
    // What is asked, and which block is uploaded, is what the message says.
    ensures reads { VerdictsRead }
    // It has no fault, and each method without one is asked (RFC 7252, sections 5.4.1, 5.7.2 and 5.8; RFC 7959, section
    // 2.2) ..
    ensures asks { VerdictsAsk }
    // .. and served then, or where its path has a delay it waits (RFC 7252, section 5.2.2) ..
    ensures methods { ServerHolds (λ limits szx _ t. AllMethods limits szx t) }
    // .. as is what the last block of an upload makes whole (RFC 7959, section 2.5).
    ensures uploads { ServerHolds (λ limits szx _ t. AllUploads limits szx t) }
    // What waits is what the exchanges defer, and a request that they say is ready is served then (RFC 7252, section
    // 5.2.2).
    ensures waits { ServerHolds (λ limits szx _ t. WaitsAsDeferred limits szx t) }
    // A deferred request that is ready is served at once.
    ensures ready { ServerHolds (λ limits szx _ t. ReadyAreServed limits szx t) }
    // What is handed up came up from the message layer, as often ..
    ensures counts { ServerHolds Counted }
    // .. and a request that is handed up is served at most once (RFC 7252, section 5.2).
    ensures served { ServerHolds (λ limits szx _ t. ServedOnce limits szx t) }
    // It is served as the table of the methods says, and what is applied is applied whole (RFC 7252, section 5.8).
    ensures right { ServerHolds (λ limits szx _ t. AllServed limits szx t) }
    // The versions of the changes are one more each, from the base on, and each path holds its last change (RFC 7252,
    // section 5.10.6).
    ensures holds { ServerHolds (λ limits szx _ t. HoldsChanges limits szx t) }
    // No call changes the limits of its store.
    ensures limits { ServerHolds (λ limits szx _ t. (own_of limits szx t).store.tally.limits ≡ limits) }
    // A version is a number of 64 bits, and what a change puts has the version of the change (RFC 7252, section 5.10.6)
    // ..
    ensures stamped { ServerHolds (λ limits szx _ t. AreStamped limits szx t) }
    // .. so an entity-tag names one representation.
    ensures tags { ServerHolds (λ limits szx _ t. OneTag limits szx t) }
    // What it sends is Empty, or carries a response to a request that was handed up, or a notification (RFC 7252,
    // sections 4.2 and 5.2; RFC 7641, section 3.2).
    ensures gives { ServerHolds SendsResponses }
    // .. which is made in the very call of the server in which its message layer is given it.
    ensures made { ServerHolds AllMadeHere }
    // .. in the order of sending.
    ensures in_order { ServerHolds GivesInOrder }
    // What a 2.05 shows, its path holds then: all of it, or the piece that Block2 says (RFC 7252, section 5.10.6; RFC
    // 7959, section 2.4). So with a notification (RFC 7641, section 4.2).
    ensures shows { ServerHolds (λ limits szx _ t. ShowsHeld limits szx t) }
    // A notification shows what the observed path holds, or is a 4.04 where that holds nothing.
    ensures notices { ServerHolds (λ limits szx _ t. NoticesShow limits szx t) }
    // The tokens that it answers and keeps have at most 8 bytes (RFC 7252, section 3).
    ensures tokens { ServerHolds (λ limits szx _ t. ShortTokens limits szx t) }
    // The store never answers 2.31 (RFC 7959, section 2.9.1).
    ensures continues { ServerHolds (λ limits szx _ t. NoneContinues limits szx t) }
    // Each observer was made by a GET that was served (RFC 7641, section 4.1).
    ensures observers { (limits : Limits) (szx : ℕ) (t : List Call) → AreObservers limits szx t }
    // What is told under one registration has rising versions, and each CON was acknowledged before the next began
    // (RFC 7641, sections 4.4 and 4.5).
    ensures follows { ServerHolds (λ limits szx _ t. Follows limits szx t) }
    // A notification that its message layer is given in a call that very call tells, with the version that it shows;
    // and a call begins one CON at most (RFC 7252, sections 4.2 and 4.7; RFC 7641, section 4.2).
    ensures told { ServerHolds AllTellSent }
    // A registration is made by a request of its endpoint and token that is served (RFC 7641, section 4.1) ..
    ensures pairs { ServerHolds (λ limits szx _ t. AllServePairs limits szx t) }
    // .. and what is told is told by the call that makes its registration, or behind it (RFC 7641, section 4.1).
    ensures under { ServerHolds (λ limits szx _ t. AreUnder limits szx t) }
    // An acknowledgement that is heard the message layer takes in that very call (RFC 7252, section 4.2).
    ensures acks { ServerHolds AcksArrive }
    // A request that comes up from the message layer is handed up, save a NON for which no Message ID is free (RFC
    // 7252, section 4.3) ..
    ensures handed_on { ServerHolds AllHandedOn }
    // .. and each that is handed up is answered at once or waits, save one that is ignored (RFC 7252, sections 5.2 and
    // 5.4.1).
    ensures attended { ServerHolds (λ limits szx _ t. AllAttended limits szx t) }
    // What waits is answered by the tick that finds it the first that can be answered (RFC 7252, sections 4.7 and
    // 5.2.2).
    ensures answered { ServerHolds FirstIsAnswered }
    // A server can go on: each further call has answers that stand in the law.
    ensures goes { ServerHolds GoesOn }
    // Calls that stand in the law lead to this state of the server, and to no other.
    ensures left { ServerHolds (λ limits szx setup t. (s : State)
        → Led limits szx setup t s ↔ (s ≡ state_left limits szx setup t)) }
    // At one moment its ticks end: at most as many do something as that state has due then, where a request that waits
    // counts for its response, and for the 64 observers that its change can mark ..
    ensures ticks { (limits : Limits) (szx : ℕ) (setup : Setup) (t : List Call) → TicksEnd limits szx setup t }
    // .. and it comes to rest: so does what it has out.
    ensures rests { ServerHolds ComesToRest }
    // Each observer is of the latest registration of its endpoint and token (RFC 7641, section 4.1).
    ensures latest { (limits : Limits) (szx : ℕ) (t : List Call) → AreLatest limits szx t }
    // A Reset, and that it is given up, end an observation (RFC 7641, sections 3.6 and 4.5) ..
    ensures ends { ServerHolds (λ limits szx _ t. EndsObservation limits szx t) }
    // .. and so do a GET with Observe 1, whatever its answer (RFC 7641, section 3.6) ..
    ensures deregisters { (limits : Limits) (szx : ℕ) (t : List Call) → EndsOnRequest limits szx t }
    // .. and a notification that is no 2.05: a 4.04, where its path holds nothing (RFC 7641, section 4.2) ..
    ensures gone { ServerHolds (λ limits szx _ t. EndsOnNotice limits szx t) }
    // .. and nothing else, but that its endpoint is forgotten.
    ensures stays { ServerHolds (λ limits szx _ t. EndsSo limits szx t) }
{}

/// What has to happen at a server whose calls stand in that law: who is registered and marked, what goes on waiting,
/// what each tick begins, and what its replies and its responses say.
pub fn server_must_law()
    // A GET with Observe 0 that is answered 2.05 with the start of the body makes the last registration, unmarked, in
    // place of one of its endpoint and token, where fewer than 64 others observe (RFC 7641, section 4.1).
    ensures registers { ServerHolds (λ limits szx _ t. AllRegister limits szx t) }
    // A change of a path marks each observer of it, and leaves the others as they were (RFC 7641, section 4.2) ..
    ensures marks { ServerHolds (λ limits szx _ t. AllMark limits szx t) }
    // .. and a mark stays until the observer is notified or registers anew, or its observation ends (RFC 7641, section
    // 4.2).
    ensures stays_due { ServerHolds (λ limits szx _ t. StayDue limits szx t) }
    // An observer that is not marked was told last the version that its path holds (RFC 7641, section 4.2).
    ensures current { ServerHolds (λ limits szx _ t. AreCurrent limits szx t) }
    // What waits goes on waiting until a call sends its response (RFC 7252, section 5.2.2), or forgets its endpoint.
    ensures waits_on { ServerHolds (λ limits szx _ t. WaitOn limits szx t) }
    // A path is plain where a call made it so, from then on (RFC 7641, section 4.5).
    ensures plains_stay { (limits : Limits) (szx : ℕ) (t : List Call) → PlainsStay limits szx t }
    // A notification of what its path holds is a NON exactly where its path was made plain, the last CON to it is less
    // than a day old, and the last change of its path at most 100 s (RFC 7641, sections 4.3 and 4.5).
    ensures ways { ServerHolds (λ limits szx _ t. WaysAre limits szx t) }
    // A Reset of the last NON of a registration of that endpoint, while it can come, ends that registration, and what
    // it ends was told last in that very NON (RFC 7641, section 3.6).
    ensures ends_on_reset { ServerHolds (λ limits szx _ t. EndsOnReset limits szx t) }
    // A path has the delay that a call gave it, until a call gives another (RFC 7252, section 5.2.2).
    ensures delays_stay { (limits : Limits) (szx : ℕ) (t : List Call) → DelaysStay limits szx t }
    // It rejects responses alone, and replies to no request with a Reset (RFC 7252, sections 4.2, 4.3 and 5.2).
    ensures rejects_responses { ServerHolds (λ limits szx setup t. Always RejectsSo (layer_of limits szx setup t)) }
    // A block of an upload that others follow is answered in the call that hands it up: with 2.31, whose Block1 has its
    // number, M 1 and a size that fits, or with an error (RFC 7959, sections 2.5 and 2.9).
    ensures continues_fits { ServerHolds (λ limits szx _ t. AllContinuesFit limits szx t) }
    // No path holds a body that is longer than the limit of the store.
    ensures short { ServerHolds (λ limits szx _ t. BodiesShort limits szx t) }
    // So a client recognises each critical option of each response and of each notification (RFC 7252, section 5.4.1).
    ensures recognised { ServerHolds (λ limits szx _ t. AllRecognised limits szx t) }
    // Each request that a call answers or serves is sent a response: what the store replied in that call, and where it
    // serves none, the code that refuses the request or 2.31 to its block. The message layer is given each response,
    // and each notification, in that very call (RFC 7252, sections 5.2.1 to 5.2.3; RFC 7641, section 4.5; RFC 7959,
    // section 2.9).
    ensures goes_out { ServerHolds AllGoOut }
    // To a CON that is answered at once it is sent in the acknowledgement, with its Message ID and its token, and where
    // the request waited in a CON with its token (RFC 7252, sections 5.2.1 and 5.2.2).
    ensures sent_as { ServerHolds AllSentSo }
    // A tick that does nothing leaves nothing that can be answered and nobody who can be notified, unless no Message ID
    // is free (RFC 7252, sections 4.4 and 4.7) ..
    ensures none_left { ServerHolds NoneLeft }
    // .. it leaves who observes, what waits, what is held and what is outstanding as it was, so nobody who could be
    // notified behind it ..
    ensures leaves { ServerHolds AllLeave }
    // .. where the message layer has nothing due and nothing that waits can be answered, a tick notifies the first
    // observer that can be, if a Message ID is free (RFC 7641, section 4.5) ..
    ensures notified { ServerHolds FirstIsNotified }
    // .. and what it begins is the next: the first of what waits that can be answered, and where none can, the first
    // observer that can be notified (RFC 7252, sections 4.7 and 5.2.2; RFC 7641, section 4.5).
    ensures begins { ServerHolds AllBeginNext }
{}

/// What is refused at a server: a request that it is to refuse, and one of a method that there is none of, and so each
/// datagram that is fed as one.
pub fn refusal_law()
    // A request that a server is to refuse is answered with an error in that call, or ignored; it is not served, now or
    // later, and the store, the uploads and the observers are as they were (RFC 7252, sections 5.4.1 and 5.9).
    ensures refused { ServerHolds (λ limits szx _ t. AllRefused limits szx t) }
    // A request whose code is that of no method is ignored, or answered with an error; it is not served, now or later,
    // and nothing is changed (RFC 7252, sections 5.8 and 5.9.2).
    ensures unknown { ServerHolds (λ limits szx _ t. Always (RefusesUnknown limits szx) t) }
    // So is each datagram that is fed with 0.31 as its code, where it had that of a request: it never changes what a
    // path holds.
    ensures never { ServerHolds (λ limits szx _ t. Always (NeverServed limits szx) t) }
{}

/// What a server doesn't do of itself.
pub fn silence_law()
    // A server that knows nothing of a peer gives out no datagram to it, until one arrives from there (RFC 7252, 5).
    ensures silent { (limits : Limits) (szx : ℕ) (setup : Setup) (t : List Call) → StaysSilent limits szx setup t }
    // Of a peer from which no datagram has come for EXCHANGE_LIFETIME it remembers none (RFC 7252, section 4.5).
    ensures forgotten { (limits : Limits) (szx : ℕ) (setup : Setup) (t : List Call)
        → ForgetsTheSilent limits szx setup t }
{}

/// Histories that stand in that law, with their bytes.
pub fn server_runs()
    // A history of a server that is observed, written out byte for byte, stands in the law.
    ensures observation { ServerLaw example.limits 6 (usual 0) example.run }
    // Its observer is told of version 1 by the answer that registers it, and of version 2 by a notification.
    ensures told { IsTold }
    // A history of a server to which a body comes in blocks, byte for byte, stands in the law.
    ensures upload { ServerLaw example.limits 6 (usual 0) upload_example.run }
{}
