//! The laws of both sides of request and response.
ghost use Rattle.std.specs.Prelude.{ℕ, List, [], ◌∷◌, ◌++◌};
ghost use Rattle.coap_types.specs.declared.endpoint.Endpoint.{Endpoint};
ghost use Rattle.coap_layer.specs.Rows.{LayerLaw};
ghost use Rattle.coap_layer.specs.Machine.State.{usual};
ghost use Rattle.coap_layer.specs.declared.setup.Setup.{Setup};
ghost use Rattle.coap_exchange.specs.AskerTrace.{Call};
ghost use Rattle.coap_exchange.specs.AskerLaw.{State, Step, Exchanged, Led, ExchangeLaw, fresh_state, below_of};
ghost use Rattle.coap_exchange.specs.AskerExact.{IsExact};
ghost use Rattle.coap_exchange.specs.AskerFollows.{AreExchanges, AreTokens, EndInTime, FewKept, AreFromServer};
ghost use Rattle.coap_exchange.specs.AskerDue.{EndWhenDue};
ghost use Rattle.coap_exchange.specs.AskerIds.{IdIsFree, IdsCounted, RequestsAreSent};
ghost use Rattle.coap_exchange.specs.AskerOpen.{IsOutstanding};
ghost use Rattle.coap_exchange.specs.AskerTells.{AreRefused, AreRejected};
ghost use Rattle.coap_exchange.specs.AskerResponses.{AreMatched, AreToldAs};
ghost use Rattle.coap_exchange.specs.AskerEmpties as empties;
ghost use Rattle.coap_exchange.specs.ShortRequests.{IsAskableWhenShort, IsAskableWhenShortExactly};
ghost use Rattle.coap_exchange.specs.ShortAnswers.{IsAnswerWhenShort, IsNotificationWhenShort};
ghost use Rattle.coap_exchange.specs.ClientExample as client_example;
ghost use Rattle.coap_exchange.specs.ServerExample as server_example;
ghost use Rattle.coap_exchange.specs.AnswererTrace as trace;
ghost use Rattle.coap_exchange.specs.AnswererLaw as answerer;
ghost use Rattle.coap_exchange.specs.AnswererLaw.{ResponseLaw};
ghost use Rattle.coap_exchange.specs.AnswererExact as exactly;
ghost use Rattle.coap_exchange.specs.AnswererSends.{AllGoBack, BeginAlone, ReadyAlone};
ghost use Rattle.coap_exchange.specs.AnswererEmpties as rejections;
ghost use Rattle.coap_exchange.specs.AnswererTells.{EndsTold, HandsOrEnds, UnmatchedTold};
ghost use Rattle.coap_exchange.specs.AnswererDeferrals.{DeferredLongEnough, ReadyWhenDue, EarliestReady};
ghost use Rattle.coap_exchange.specs.AnswererFollows.{AreResponses, AreRequests, EndsOnce, WaitsForOutstanding};
ghost use Rattle.coap_exchange.specs.AnswererFollows.{FewDeferred};
ghost use Rattle.coap_exchange.specs.AnswererIds as ids_given;
ghost use Rattle.coap_exchange.specs.Peers.{OneForAPeer};

use coap_layer::layer_law;

/// What leads to the state of a client's side stands in the law, and what follows from that.
pub fn asker_law()
    // No call at all leads to the first state of an asker.
    ensures start { (server : Endpoint) (setup : Setup) → Led server setup [] (fresh_state server setup) }
    // A step of an asker lengthens the calls that led to the state before it.
    ensures step { (server : Endpoint) (setup : Setup) (t : List Call) (c : Call) (old new : State)
        → Led server setup t old
        → Step old c new → Led server setup (c ∷ t) new }
    // What several steps lengthen leads to the asker's state behind them.
    ensures steps { (server : Endpoint) (setup : Setup) (t calls : List Call) (old new : State) → Led server setup t old
        → Exchanged old calls new → Led server setup (calls ++ t) new }
    // A history that leads to an asker stands in the law of its exchanges.
    ensures law { (server : Endpoint) (setup : Setup) (t : List Call) (s : State) → Led server setup t s
        → ExchangeLaw server setup t }
    // The calls of the layer beneath an asker stand in its law (RFC 7252, section 4).
    ensures layer { (server : Endpoint) (setup : Setup) (t : List Call) → ExchangeLaw server setup t
        → LayerLaw setup (below_of server setup t) }
    // The law of an asker leaves each call one answer.
    ensures exact { (server : Endpoint) (setup : Setup) (past : List Call) → IsExact server setup past }
    // Exchanges don't overlap, each ends at most once, and an answer has the token of the one that is open
    // (RFC 7252, sections 4.7 and 5.3.2); a notification has a kept token (RFC 7641, section 3.2).
    ensures exchanges { (server : Endpoint) (setup : Setup) (t : List Call) → ExchangeLaw server setup t
        → AreExchanges t }
    // A request is refused as Running exactly where an exchange runs (RFC 7252, section 4.7).
    ensures refused { (server : Endpoint) (setup : Setup) (t : List Call) → ExchangeLaw server setup t → AreRefused t }
    // No token serves two requests but an observation and its cancel (RFC 7252, section 5.3.1; RFC 7641, section 3.6).
    ensures tokens { (server : Endpoint) (setup : Setup) (t : List Call) → ExchangeLaw server setup t
        → AreTokens setup.word t }
    // A Timeout and NoResponse come in time (RFC 7252, sections 4.2 and 5.2.2).
    ensures in_time { (server : Endpoint) (setup : Setup) (t : List Call) → ExchangeLaw server setup t
        → EndInTime server setup t }
    // .. and no later than at the first tick then (RFC 7252, sections 4.2 and 5.2.2).
    ensures when_due { (server : Endpoint) (setup : Setup) (t : List Call) → ExchangeLaw server setup t
        → EndWhenDue server setup t }
    // Until it is acknowledged, the request of the exchange that runs is outstanding (RFC 7252, section 4.2).
    ensures outstanding { (server : Endpoint) (setup : Setup) (t : List Call) → ExchangeLaw server setup t
        → IsOutstanding server setup t }
    // The tokens that are kept are those kept and not released since, at most 16 (RFC 7641, section 3.2).
    ensures few_kept { (server : Endpoint) (setup : Setup) (t : List Call) → ExchangeLaw server setup t
        → FewKept server setup t }
    // What is told came from the server, and is what a datagram spelled (RFC 7252, section 5.3.2).
    ensures from_server { (server : Endpoint) (setup : Setup) (t : List Call) → ExchangeLaw server setup t
        → AreFromServer server t }
    // .. has no critical option that is not recognised (section 5.4.1), and matches in Message ID where it is
    // piggybacked (section 5.3.2).
    ensures matched { (server : Endpoint) (setup : Setup) (t : List Call) → ExchangeLaw server setup t
        → AreMatched server setup t }
    // A response with the token of the exchange that runs is its answer, and one with a kept token alone a
    // notification (RFC 7252, section 5.3.2; RFC 7641, section 3.2).
    ensures told_as { (server : Endpoint) (setup : Setup) (t : List Call) → ExchangeLaw server setup t
        → AreToldAs server setup t }
    // What arrives is acknowledged, rejected or neither (RFC 7252, sections 4.2, 4.3 and 5.3.2).
    ensures replied { (server : Endpoint) (setup : Setup) (t : List Call) → ExchangeLaw server setup t
        → empties.AreReplied server setup t }
    // A Reset that is told is that of the request of the exchange (RFC 7252, section 4.2).
    ensures rejected { (server : Endpoint) (setup : Setup) (t : List Call) → ExchangeLaw server setup t
        → AreRejected server setup t }
    // Each Message ID and each fresh token is given to the request of an exchange that ended, or of the one that runs
    // (RFC 7252, sections 4.4 and 5.3.1) ..
    ensures ids { (server : Endpoint) (setup : Setup) (t : List Call) → ExchangeLaw server setup t
        → IdsCounted server setup t }
    // .. so where fewer exchanges end in each EXCHANGE_LIFETIME than a quarter of the Message IDs, one is free ..
    ensures id_free { (server : Endpoint) (setup : Setup) (t : List Call) → ExchangeLaw server setup t
        → IdIsFree server setup t }
    // .. and no request is refused for want of one or of a token.
    ensures sent { (server : Endpoint) (setup : Setup) (t : List Call) → ExchangeLaw server setup t
        → RequestsAreSent server setup t }
{
    layer_law();
}

/// What leads to the state of a server's side stands in the law, and what follows from that.
pub fn answerer_law()
    // No call at all leads to the first state of an answerer.
    ensures start { (setup : Setup) → answerer.Led setup [] (answerer.fresh_state setup) }
    // A step of an answerer lengthens the calls that led to the state before it.
    ensures step { (setup : Setup) (t : List trace.Call) (c : trace.Call) (old new : answerer.State)
        → answerer.Led setup t old → answerer.Step old c new → answerer.Led setup (c ∷ t) new }
    // What several steps lengthen leads to the answerer's state behind them.
    ensures steps { (setup : Setup) (t calls : List trace.Call) (old new : answerer.State) → answerer.Led setup t old
        → answerer.Exchanged old calls new → answerer.Led setup (calls ++ t) new }
    // A history that leads to an answerer stands in the law of its responses.
    ensures law { (setup : Setup) (t : List trace.Call) (s : answerer.State) → answerer.Led setup t s
        → ResponseLaw setup t }
    // The calls of the layer beneath an answerer stand in its law (RFC 7252, section 4).
    ensures layer { (setup : Setup) (t : List trace.Call) → ResponseLaw setup t
        → LayerLaw setup (answerer.below_of setup t) }
    // The law of an answerer leaves each call one answer.
    ensures exact { (setup : Setup) (past : List trace.Call) → exactly.IsExact setup past }
    // A request that is handed up has at most one response (RFC 7252, section 5.2).
    ensures responses { (setup : Setup) (t : List trace.Call) → ResponseLaw setup t → AreResponses t }
    // What is handed up is what a datagram spelled (RFC 7252, section 5.2).
    ensures requests { (setup : Setup) (t : List trace.Call) → ResponseLaw setup t → AreRequests t }
    // What hands up a request ends no separate response and no notification (RFC 7252, section 4.3).
    ensures ends_none { (setup : Setup) (t : List trace.Call) → ResponseLaw setup t → HandsOrEnds t }
    // A separate response that a Reset or a failure ends is said once (RFC 7252, section 5.2.2).
    ensures ends { (setup : Setup) (t : List trace.Call) → ResponseLaw setup t → EndsOnce t }
    // .. and it is said where it ends (RFC 7252, section 5.2.2; RFC 7641, sections 3.6 and 4.5).
    ensures told { (setup : Setup) (t : List trace.Call) → ResponseLaw setup t → EndsTold t }
    // A deferred request waits for the CON that is outstanding to its endpoint (RFC 7252, section 4.7).
    ensures waits { (setup : Setup) (t : List trace.Call) (law : ResponseLaw setup t)
        → WaitsForOutstanding setup t law }
    // A deferred request has its response no earlier than its delay says (RFC 7252, section 5.2.2).
    ensures long_enough { (setup : Setup) (t : List trace.Call) → ResponseLaw setup t → DeferredLongEnough t }
    // .. and is ready once that has passed.
    ensures when_due { (setup : Setup) (t : List trace.Call) → ResponseLaw setup t → ReadyWhenDue t }
    // .. in the order of deferral.
    ensures earliest { (setup : Setup) (t : List trace.Call) → ResponseLaw setup t → EarliestReady t }
    // A response goes to its request's endpoint and carries its token (RFC 7252, sections 5.2 and 5.3.2).
    ensures back { (setup : Setup) (t : List trace.Call) → ResponseLaw setup t → AllGoBack setup t }
    // A response that arrives is rejected, and a request that is deferred acknowledged (RFC 7252,
    // sections 4.3 and 5.2.2).
    ensures replied { (setup : Setup) (t : List trace.Call) → ResponseLaw setup t → rejections.AreReplied t }
    // A CON begins only where none to its endpoint is outstanding (RFC 7252, section 4.7).
    ensures alone { (setup : Setup) (t : List trace.Call) → ResponseLaw setup t → BeginAlone setup t }
    // .. and so where an endpoint is said to be ready for a notification.
    ensures ready_alone { (setup : Setup) (t : List trace.Call) → ResponseLaw setup t → ReadyAlone setup t }
    // The Reset of what isn't outstanding is that of the last datagram (RFC 7641, section 3.6).
    ensures unmatched { (setup : Setup) (t : List trace.Call) → ResponseLaw setup t → UnmatchedTold t }
    // Without the CON that is outstanding to an endpoint, none to it is (RFC 7252, section 4.7).
    ensures one { (setup : Setup) (t : List trace.Call) → ResponseLaw setup t → OneForAPeer setup t }
    // At most 16 requests are deferred (profile).
    ensures few { (setup : Setup) (t : List trace.Call) → ResponseLaw setup t → FewDeferred t }
    // Each Message ID is given to the response to a request that came, or to a notification (RFC 7252, section 4.4) ..
    ensures ids { (setup : Setup) (t : List trace.Call) → ResponseLaw setup t → ids_given.IdsCounted setup t }
    // .. so where fewer notifications are sent in each EXCHANGE_LIFETIME than an eighth of the Message IDs, and fewer
    // messages come, one is free.
    ensures id_free { (setup : Setup) (t : List trace.Call) → ResponseLaw setup t → ids_given.IdIsFree setup t }
{
    layer_law();
}

/// A request may be asked that isn't Empty, whose options ascend and are short, and that is short
/// enough (RFC 7252, section 4.6).
pub fn askable_law()
    // A request whose bytes are counted by the bound to be few enough may be asked.
    ensures counted { IsAskableWhenShort }
    // A request whose bytes are counted exactly to be few enough may be asked.
    ensures exact { IsAskableWhenShortExactly }
{}

/// A response may be given whose code is of class 2 to 5, whose options ascend and are short, and
/// that is short enough (RFC 7252, section 4.6).
pub fn answerable_law()
    // A response whose bytes are counted to be few enough may be given (RFC 7252, section 4.6).
    ensures { IsAnswerWhenShort }
{}

/// The same of a notification with a token of at most 8 bytes.
pub fn notifiable_law()
    // A notification whose bytes are counted to be few enough may be sent.
    ensures { IsNotificationWhenShort }
{}

/// Histories that stand in the laws, with their bytes.
pub fn witness_law()
    // A history of a client, written out byte for byte, stands in the law.
    ensures client { ExchangeLaw client_example.server (usual 0) client_example.run }
    // A history of a server, written out byte for byte, stands in the law.
    ensures server { ResponseLaw (usual 0) server_example.run }
{}
