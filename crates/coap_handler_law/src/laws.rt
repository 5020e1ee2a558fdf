//! The law of handlers.
ghost use Rattle.std.specs.Prelude.{List};
ghost use Rattle.coap_types.specs.declared.endpoint.Endpoint.{Endpoint};
ghost use Rattle.coap_layer.specs.Clocks.{Clocks};
ghost use Rattle.coap_layer.specs.declared.setup.Setup.{Setup};
ghost use Rattle.coap_exchange.specs.AnswererTrace.{Call};
ghost use Rattle.coap_exchange.specs.AnswererLaw.{State, Led};
ghost use Rattle.coap_exchange.specs.AnswererFollows.{AreResponses};
ghost use Rattle.coap_exchange.specs.AnswererSends.{AllGoBack};
ghost use Rattle.coap_handler_law.specs.Promised.{AreCalledOnce, CopiesGet, AnswersAreKept};
ghost use Rattle.coap_handler_law.specs.Promised.{AcksAreReplies, AreHandedOnce, IsToldTheAnswer};

use coap_exchange::answerer_law;
use coap_layer::{layer_law, paced_channel_law};

/// What a history of a server's exchanges promises of a handler: of the code that is handed each request that they hand
/// up, and computes its answer.
pub fn handler_law()
    // A handler is called at most once in EXCHANGE_LIFETIME with a message of an endpoint and a Message ID (RFC 7252,
    // section 4.5).
    ensures once { (setup : Setup) (t : List Call) (s : State) → Led setup t s → AreCalledOnce setup t }
    // A handler's answer is to a request that it was called with, and the request has no other (RFC 7252, section 5.2).
    ensures one_answer { (setup : Setup) (t : List Call) (s : State) → Led setup t s → AreResponses t }
    // What the handler answered goes to the endpoint of that request, with its token, its code, its options and its
    // payload as they were given: in the acknowledgement with that request's Message ID, in a NON, or later in a CON
    // (RFC 7252, sections 5.2 and 5.3.2).
    ensures back { (setup : Setup) (t : List Call) (s : State) → Led setup t s → AllGoBack setup t }
    // The answer to a Confirmable request is kept as the reply to it (RFC 7252, section 4.5).
    ensures kept { (setup : Setup) (past : List Call) → AnswersAreKept setup past }
    // A copy of a Confirmable request gets the reply that is kept, byte for byte, and a copy of a Non-confirmable one
    // nothing; and no handler is called (RFC 7252, section 4.5).
    ensures copies { (setup : Setup) (t : List Call) (s : State) → Led setup t s → CopiesGet setup t }
    // Of two ends with a clock each, on a network that loses, repeats and delays datagrams, and where each reply is
    // given at once: a handler is called at most once with a Confirmable message of the other end (RFC 7252, section
    // 4.5).
    ensures called { (c : Clocks) (one other : Setup) (near far : Endpoint) → AreHandedOnce c one other near far }
    // .. and an acknowledgement that the other end takes, with an answer or without, is what the server gave as the
    // reply to that very message: the handler's answer, in its bytes, where it answered at once (RFC 7252, sections 4.2
    // and 5.2.1).
    ensures replies { (c : Clocks) (one other : Setup) (near far : Endpoint) (t : List Call)
        → AcksAreReplies c one other near far t }
    // So where it brings a response, that is the handler's answer to that very request: its code, its token, its
    // options and its payload (RFC 7252, sections 5.2.1 and 5.3.2).
    ensures told { (c : Clocks) (one other : Setup) (near far : Endpoint) (t : List Call)
        → IsToldTheAnswer c one other near far t }
{
    answerer_law();
    layer_law();
    paced_channel_law();
}
