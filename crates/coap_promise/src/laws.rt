//! The laws of a run: what holds of every legal run.
ghost use Rattle.std.specs.Prelude.{◌≡◌, ◌≤◌, ℕ, ◌+◌, length, List};
ghost use Rattle.coap_types.specs.declared.transmission.TheConstants.{EXCHANGE_LIFETIME_MS as exchange_lifetime};
ghost use Rattle.coap_types.specs.declared.transmission.TheConstants.{LAST_ARRIVAL_MS as last_arrival};
ghost use Rattle.coap_types.specs.declared.transmission.TheConstants.{MAX_LATENCY_MS as max_latency};
ghost use Rattle.coap_types.specs.declared.message.Kind.{Kind};
ghost use Rattle.coap_types.specs.declared.message.Kind.TheVariants.{Ack};
ghost use Rattle.coap_types.specs.declared.transmission.TheConstants.{MAX_TRANSMIT_WAIT_MS as max_transmit_wait};
ghost use Rattle.coap_layer.specs.Channel.{near_of, far_of};
ghost use Rattle.coap_layer.specs.OneClock.{ChannelLaw};
ghost use Rattle.coap_layer.specs.Clocks as layers;
ghost use Rattle.coap_layer.specs.Paced as paced;
ghost use Rattle.coap_client.specs.Law as clients;
ghost use Rattle.coap_server.specs.Law as servers;
ghost use Rattle.coap_promise.specs.Applied.{AppliedWhole, AtMostOnce, EachBelongs};
ghost use Rattle.coap_promise.specs.Answers.{AllAnswered};
ghost use Rattle.coap_promise.specs.AtAnyTime as at_any_time;
ghost use Rattle.coap_promise.specs.Bounds.{AreBounded, AreShort};
ghost use Rattle.coap_promise.specs.CameFrom.{CamesFrom};
ghost use Rattle.coap_promise.specs.Clocks as by_clocks;
ghost use Rattle.coap_promise.specs.Clocks.{Clocks, of_layers};
ghost use Rattle.coap_promise.specs.Delivery.{AllFair};
ghost use Rattle.coap_record.specs.declared.addresses.Addresses.{Addresses};
ghost use Rattle.coap_promise.specs.Done.{EachFailed, NeverFailed, OnceDone};
ghost use Rattle.coap_record.specs.Events.{Config};
ghost use Rattle.coap_promise.specs.Fresh.{AreBehind, AreFresh, AreFreshIf, ComesIn, GainsAtMost, TickedWithin, age_in};
ghost use Rattle.coap_promise.specs.Given.{AllGiven};
ghost use Rattle.coap_promise.specs.Held.{EachHeld, EachValid, EachValue};
ghost use Rattle.coap_promise.specs.Holds.{HoldsChanges, ChangesOwned};
ghost use Rattle.coap_promise.specs.Hops.{hops_of, across, TakenAtOnce};
ghost use Rattle.coap_record.specs.Legal.{InLegalRuns, OfLegalRuns};
ghost use Rattle.coap_record.specs.LegalEvents.{NoneRuns, NotAfter, never_given, NoneFrom, CallsMay, ObservesMay};
ghost use Rattle.coap_record.specs.LegalEvents.{EndsMay, SetsMay, RemovesMay, TicksMay, StrangersMay, DeliveriesMay};
ghost use Rattle.coap_record.specs.LegalEvents.{NoneFalls, NoneOver, NoneLonger, NoneBeyond};
ghost use Rattle.coap_promise.specs.LegalRuns.{MayComeTill};
ghost use Rattle.coap_promise.specs.Local.{LocalRight};
ghost use Rattle.coap_promise.specs.NoFault.{NoFault};
ghost use Rattle.coap_promise.specs.Noticed.{AllNoticed};
ghost use Rattle.coap_record.specs.Events.{Event};
ghost use Rattle.coap_record.specs.Legal.{Legal};
ghost use Rattle.coap_record.specs.Record.{Turn, RecordOf, entries_of, client_of, server_trace};
ghost use Rattle.coap_promise.specs.Rising.{HeldAreNamed, ValuesRise};
ghost use Rattle.coap_promise.specs.Serves.{AllServed};

/// What comes from an end's address was given out by that end, for the one that it comes to, at most 100,000 ms before.
pub fn delivery_law()
    // What comes from an end's address was given out by that end for this one, at most 100 s before.
    ensures fair { OfLegalRuns (λ config turns. AllFair config.addresses turns) }
{}

/// Runs in which each end has a clock of its own.
pub fn clocks_law()
    // What is legal by one clock is legal by two that show the same.
    ensures one { (config : Config) (turns : List Turn) → Legal config turns → (c : Clocks)
        × by_clocks.Legal c config turns }
    // The message layers stand in the law of two layers, each with its clock, and the datagrams between them.
    ensures channel { (c : Clocks) (config : Config) (events : List Event) (turns : List Turn)
        → RecordOf config events turns
        → by_clocks.Legal c config turns → paced.ChannelLaw (of_layers c) config.client_setup config.server_setup
        config.addresses.client config.addresses.server (hops_of config turns) }
{}

/// What holds however late datagrams are, and however the ends' clocks run.
pub fn any_time_law()
    // However late it is, what comes from the client's address is a request that the client sent (RFC 7252, sections
    // 4.2 and 5.2).
    ensures came { at_any_time.InRuns CamesFrom }
    // However late datagrams are, each body that is reported was held by the server at the call's path, under the
    // version of its ETag, between the call and the report (RFC 7252, sections 5.8.1 and 5.10.6; RFC 7959, section
    // 2.4).
    ensures held { at_any_time.InRuns EachHeld }
    // .. so was each representation that is reported as valid (sections 5.9.1.3 and 5.10.6.2) ..
    ensures valid { at_any_time.InRuns EachValid }
    // .. and what a call reports is no older than the request that it answers: it was held behind the sending of
    // that, and a value that comes in parts behind that of the request for its last part ..
    ensures behind { at_any_time.InRuns AreBehind }
    // .. and each value of an observation, since that was taken (RFC 7641, sections 3.2 and 4.4).
    ensures value { at_any_time.InRuns EachValue }
    // A version is named by its ETag (RFC 7252, section 5.10.6).
    ensures named { at_any_time.InRuns HeldAreNamed }
    // What is applied for the client's address belongs to a call (section 5.3.1).
    ensures belongs { at_any_time.InRuns EachBelongs }
    // What is served is what its datagram asks, by the table of the methods (section 5.8).
    ensures served { at_any_time.InRuns AllServed }
    // Where Done is reported, a request of the call was applied between call and report (section 5.8).
    ensures done { at_any_time.InRuns OnceDone }
    // Where Failed is reported, the server said so to a request of the call between call and report, however late
    // datagrams are, and what 4.04 and 4.12 say of the path was so there (sections 5.8 and 5.9).
    ensures refused { at_any_time.InRuns EachFailed }
    // Each answer was made by the server before, for the client, under that token (section 5.3.2).
    ensures answered { at_any_time.InRuns AllAnswered }
    // .. and so was each notification, whenever it comes (RFC 7641, section 3.2).
    ensures noticed { at_any_time.InRuns AllNoticed }
    // A GET makes at most as many exchanges as 4 passes over the blocks of the longest body (RFC 7959, section 2.4).
    ensures bounded { at_any_time.InRuns AreBounded }
{}

/// What the message layers of the two ends do in a run, in one order (RFC 7252, section 4).
pub fn hops_law()
    // The near hops are the entries of the client's layer, the far ones of the server's.
    ensures near { (config : Config) (turns : List Turn) → near_of (hops_of config turns)
        ≡ clients.layer_of config.addresses.server config.client_sizes config.client_setup
        (client_of (entries_of turns)) }
    // The far hops are the entries of the server's message layer.
    ensures far { (config : Config) (turns : List Turn) → far_of (hops_of config turns)
        ≡ servers.layer_of config.limits config.server_szx config.server_setup
        (server_trace config (entries_of turns)) }
    // In a legal run they stand in the law of two layers and the datagrams between them.
    ensures channel { OfLegalRuns (λ config turns. ChannelLaw config.client_setup config.server_setup
        config.addresses.client config.addresses.server (hops_of config turns)) }
    // They stand in the law of two layers the other way round, too.
    ensures back { OfLegalRuns (λ config turns. ChannelLaw config.server_setup config.client_setup
        config.addresses.server config.addresses.client (across (hops_of config turns))) }
    // What an end gives out in a turn was sent by its layer in that turn, at its moment.
    ensures at_once { OfLegalRuns (λ config turns. TakenAtOnce config.addresses (hops_of config turns) turns) }
{}

/// What the server's changes are, whatever the events are.
pub fn changes_law()
    // Each path holds its last change, which says what it holds, and the versions are one more each, from the base on
    // (RFC 7252, section 5.10.6).
    ensures holds { InLegalRuns HoldsChanges }
    // A local change does what it answers: it puts, or removes, by one change, where the store has no reason to refuse,
    // or nothing changes.
    ensures local { InLegalRuns LocalRight }
    // Each change is a local one, or that of the request to its path that is applied there (RFC 7252, section 5.8).
    ensures owned { InLegalRuns ChangesOwned }
    // No path holds a body that is longer than the store's limit (profile).
    ensures short { InLegalRuns AreShort }
{}

/// Whose requests the server hands up in a legal run.
pub fn requests_law()
    // What comes from the client's address is a request that the client sent (RFC 7252, sections 4.2 and 5.2).
    ensures came { InLegalRuns CamesFrom }
    // What is served is what its datagram asks, by the table of the methods, and applied only where its preconditions
    // hold; and each request that asks whole, or whose last block makes a body whole, is served or waits (RFC 7252,
    // sections 5.2.2, 5.8 and 5.10.8; RFC 7959, section 2.5).
    ensures served { InLegalRuns AllServed }
    // What is applied for the client's address belongs to a call (RFC 7252, section 5.3.1).
    ensures belongs { InLegalRuns EachBelongs }
    // What is applied for a call has its method, path and preconditions, and its format, and does to that path what the
    // call asks, with all of its body, whether that came in one message or in blocks (RFC 7252, sections 5.8 and
    // 5.10.8; RFC 7959, section 2.5).
    ensures whole { InLegalRuns AppliedWhole }
    // For each call at most one request is applied (RFC 7252, section 4.5; RFC 7959, section 2.5).
    ensures once { InLegalRuns AtMostOnce }
{}

/// Whose responses the client takes in a legal run, and what is taken of its reports.
pub fn answers_law()
    // Each answer was made by the server before, for the client, under that token (RFC 7252, section 5.3.2; RFC 7641,
    // section 3.2).
    ensures answered { InLegalRuns AllAnswered }
    // .. and so was each notification (RFC 7641, section 3.2).
    ensures noticed { InLegalRuns AllNoticed }
    // Its reports are all taken, in order, each once.
    ensures given { InLegalRuns AllGiven }
{}

/// Which events are legal.
pub fn legal_law()
    // A datagram may come to 100,000 ms after it was given out, and no later (MAX_LATENCY, RFC 7252, section 4.8.2).
    ensures comes { MayComeTill max_latency }
    // A run is not legal in which the first datagram comes more than 100,000 ms after it was given out.
    ensures late { NotAfter max_latency }
    // Each kind of event may happen with numbers in range, at a moment that is not before the last: a call, an
    // observation, its cancel and its end, a local change and a removal, ticks, a datagram of any stranger, and each
    // datagram that was given out to an end.
    ensures calls { (addresses : Addresses) → CallsMay addresses }
    // An observation whose numbers are in range may happen at each moment that is not before the last.
    ensures observes { (addresses : Addresses) → ObservesMay addresses }
    // So may a cancel, and the end of an observation without a message.
    ensures ends { (addresses : Addresses) → EndsMay addresses }
    // So may a local change.
    ensures sets { (addresses : Addresses) → SetsMay addresses }
    // So may a local removal.
    ensures removes { (addresses : Addresses) → RemovesMay addresses }
    // So may the ticks of either end.
    ensures ticks { (addresses : Addresses) → TicksMay addresses }
    // So may a datagram of any bytes from any address that is no end's.
    ensures strangers { (addresses : Addresses) → StrangersMay addresses }
    // So may each datagram that was given out to an end at most 100,000 ms before.
    ensures deliveries { (addresses : Addresses) → DeliveriesMay addresses max_latency }
    // Moments don't fall; moments and words have 64 bits, a path has 16 segments at most, and a format has 16 bits.
    ensures falls { NoneFalls }
    // A run is not legal in which a tick has a moment or a word of over 64 bits.
    ensures over { NoneOver }
    // A run is not legal in which a path of over 16 segments is removed.
    ensures longer { NoneLonger }
    // A run is not legal in which a format of over 16 bits is set.
    ensures beyond { NoneBeyond }
    // One that was never given out can't come, and a stranger has no end's address.
    ensures given { NoneRuns never_given }
    // A run is not legal in which a stranger has the address of its client.
    ensures of_client { NoneFrom (λ config. config.addresses.client) }
    // A run is not legal in which a stranger has the address of its server.
    ensures of_server { NoneFrom (λ config. config.addresses.server) }
{}

/// What the client reports in a legal run.
pub fn reports_law()
    // A body was held by the server at that path, under the version of its ETag, between the call and the report (RFC
    // 7252, sections 5.8.1 and 5.10.6; RFC 7959, section 2.4).
    ensures held { InLegalRuns EachHeld }
    // .. so was what is valid still, by an ETag of the call (RFC 7252, sections 5.9.1.3 and 5.10.6.2) ..
    ensures valid { InLegalRuns EachValid }
    // .. and a value of an observation, between the observation's start and the report (RFC 7641, sections 3.2 and 4.4;
    // RFC 7959, section 2.6).
    ensures value { InLegalRuns EachValue }
    // Where success is reported, a request of the call was applied between call and report (RFC 7252, section 5.8).
    ensures done { InLegalRuns OnceDone }
    // Where Failed is reported, none is applied, before or after (RFC 7252, section 5.9).
    ensures failed { InLegalRuns NeverFailed }
{}

/// What is promised of the values of an observation in a legal run.
pub fn observations_law()
    // Of two values of one observation the later one has the later version (RFC 7641, sections 1.3 and 3.4).
    ensures rising { InLegalRuns ValuesRise }
    // The versions that are held have 64 bits, and each is named by its entity-tag (RFC 7252, section 5.10.6).
    ensures named { InLegalRuns HeldAreNamed }
{}

/// The first claim of the promise: what is reported was held.
pub fn held_law()
    // Each body that is reported was held by the server at the call's path, under the version of its ETag, between the
    // call and the report (RFC 7252, sections 5.8.1 and 5.10.6; RFC 7959, section 2.4).
    ensures bodies { by_clocks.InLegalRuns EachHeld }
    // .. so was each representation that is reported as valid, by an ETag of the call (RFC 7252, sections 5.9.1.3 and
    // 5.10.6.2) ..
    ensures valid { by_clocks.InLegalRuns EachValid }
    // .. and each value of an observation, since that was taken (RFC 7641, sections 3.2 and 4.4; RFC 7959, section
    // 2.6).
    ensures values { by_clocks.InLegalRuns EachValue }
{}

/// .. and is not old: it was held at most EXCHANGE_LIFETIME before the report, and what the client's clock gains
/// meanwhile.
pub fn fresh_law()
    // Each body, valid representation and value that is reported was held at an event at which the client's clock
    // showed at most 252,000 ms less (RFC 7252, section 4.8.2): 147,000 till the last copy of the request comes,
    // 100,000 till the answer comes, and 5,000 that the client's clock gains on the server's.
    ensures fresh { (c : Clocks) (config : Config) (events : List Event) (turns : List Turn)
        → RecordOf config events turns
        → by_clocks.Legal c config turns
        → AreFresh config (λ past t. c.client (length past)) (exchange_lifetime + layers.max_gain) turns }
    // .. or, where that gains at most so much in LAST_ARRIVAL_MS, at most so much more than EXCHANGE_LIFETIME less.
    ensures gains { (c : Clocks) (config : Config) (events : List Event) (turns : List Turn)
        → RecordOf config events turns
        → by_clocks.Legal c config turns → (gain : ℕ) → GainsAtMost c gain
        → AreFresh config (λ past t. c.client (length past)) (exchange_lifetime + gain) turns }
    // .. and less where what is taken comes in a Confirmable message of the server (147,000 ms) or in a Non-confirmable
    // one (100,000 ms).
    ensures by_type { (c : Clocks) (config : Config) (events : List Event) (turns : List Turn)
        → RecordOf config events turns
        → by_clocks.Legal c config turns → (gain : ℕ) → GainsAtMost c gain → (kind : Kind)
        → AreFreshIf config (λ past t. c.client (length past)) (age_in kind + gain) (λ past e. ComesIn kind e) turns }
    // What comes in an acknowledgement is no older than the client's clock itself shows: where nothing of its message
    // layer was due at a tick so long before, MAX_TRANSMIT_WAIT and so long (RFC 7252, section 4.8.2).
    ensures ticking { (c : Clocks) (config : Config) (events : List Event) (turns : List Turn)
        → RecordOf config events turns
        → by_clocks.Legal c config turns → (time : ℕ)
        → AreFreshIf config (λ past t. c.client (length past)) (max_transmit_wait + time)
        (λ past e. ComesIn Ack e × TickedWithin config time past e) turns }
    // So where that tick was at most 54,000 ms before, all that is reported is at most 152,000 ms old.
    ensures ticks { (c : Clocks) (config : Config) (events : List Event) (turns : List Turn)
        → RecordOf config events turns
        → by_clocks.Legal c config turns → (time : ℕ) → max_transmit_wait + time ≤ last_arrival
        → AreFreshIf config (λ past t. c.client (length past)) (last_arrival + layers.max_gain)
        (TickedWithin config time) turns }
    // By one clock: at most EXCHANGE_LIFETIME before.
    ensures by_one { OfLegalRuns (λ config turns. AreFresh config (λ past t. t.event.at) exchange_lifetime turns) }
    // What a call reports is no older than the request that it answers: it was held behind the sending of that; nor
    // is a value that comes in parts older than the request for its last part (RFC 7959, section 2.6).
    ensures behind { by_clocks.InLegalRuns AreBehind }
{}

/// The second: what is asked is applied whole, at most once, exactly once where success is reported and never where
/// Failed is reported.
pub fn applied_law()
    // What is applied for the client's address belongs to a call (RFC 7252, section 5.3.1), ..
    ensures belongs { by_clocks.InLegalRuns EachBelongs }
    // .. and does to the call's path what that asks, with all of its body, where the call's preconditions hold (RFC
    // 7252, sections 5.8 and 5.10.8; RFC 7959, section 2.5).
    ensures whole { by_clocks.InLegalRuns AppliedWhole }
    // For each call at most one request is applied (RFC 7252, section 4.5), ..
    ensures once { by_clocks.InLegalRuns AtMostOnce }
    // .. one, between call and report, where Done is reported (RFC 7252, section 5.8), ..
    ensures done { by_clocks.InLegalRuns OnceDone }
    // .. and none, before or after, where Failed is (RFC 7252, section 5.9).
    ensures failed { by_clocks.InLegalRuns NeverFailed }
    // Where Failed is reported, the server said so to a request of the call between call and report; and where the
    // code is 4.04, or 4.12 to a call that is no GET, the path held nothing there, or the call's preconditions failed
    // (RFC 7252, sections 5.8, 5.9 and 5.10.8).
    ensures refused { by_clocks.InLegalRuns EachFailed }
    // What the server holds are its changes, by their versions (RFC 7252, section 5.10.6), each of which is a local
    // one, or that of the one request to its path that is applied there (section 5.8).
    ensures holds { by_clocks.InLegalRuns HoldsChanges }
    // Each change in a legal run is a local one, or that of the one request to its path that is applied there.
    ensures owned { by_clocks.InLegalRuns ChangesOwned }
{}

/// The third: the values of an observation rise.
pub fn rising_law()
    // Of two values of one observation the later one has the later version (RFC 7641, sections 1.3 and 3.4); ..
    ensures rising { by_clocks.InLegalRuns ValuesRise }
    // .. a version is named by its ETag (RFC 7252, section 5.10.6), ..
    ensures named { by_clocks.InLegalRuns HeldAreNamed }
    // .. and each value was held under its version (RFC 7641, section 4.4).
    ensures values { by_clocks.InLegalRuns EachValue }
{}

/// The fourth: no datagram makes either end fault.
pub fn no_fault_law()
    // At each position of a record, each event that may happen there has a turn in which nothing is refused, and with
    // which the record goes on; and of an input that is refused memory no call is left, or of ticks those before it.
    ensures no_fault { OfLegalRuns NoFault }
{}
