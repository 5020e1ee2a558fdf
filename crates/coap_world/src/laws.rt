//! The whole promise to one client and one server.
ghost use Rattle.std.specs.Prelude.{◌≡◌, ◌+◌, length, List, []};
ghost use Rattle.coap_types.specs.declared.transmission.TheConstants.{EXCHANGE_LIFETIME_MS as exchange_lifetime};
ghost use Rattle.coap_layer.specs.Clocks as layers;
ghost use Rattle.coap_promise.specs.Agrees.{Agrees};
ghost use Rattle.coap_promise.specs.Bounds.{AreBounded};
ghost use Rattle.coap_promise.specs.Clocks as by_clocks;
ghost use Rattle.coap_promise.specs.Clocks.{Clocks};
ghost use Rattle.coap_smooth.specs.Current.{CurrentAlone};
ghost use Rattle.coap_record.specs.Events.{Config};
ghost use Rattle.coap_promise.specs.Fresh.{AreFresh};
ghost use Rattle.coap_record.specs.Legal.{OfLegalRuns};
ghost use Rattle.coap_promise.specs.NoFault.{OfRecords, NeverFaults};
ghost use Rattle.coap_record.specs.Events.{Event};
ghost use Rattle.coap_record.specs.Record.{Turn, RecordOf};
ghost use Rattle.coap_smooth.specs.Reported.{EightAreReported};
ghost use Rattle.coap_smooth.specs.Smooth.{FewTold, NoneObserved, Smooth, SmoothFewTold};
ghost use Rattle.coap_smooth.specs.SmoothAnswers.{AnsweredSmoothly};

use coap_smooth::{answered_law, open_law, reported_law, sent_law, watch_law};

/// What a client and a server come to together, however the datagrams between them are lost, repeated and delayed:
/// the claims of `held_law`, `applied_law`, `rising_law` and `no_fault_law`, and what holds beside them.
pub fn agreement()
    // Each body, value and valid representation that is reported was held at its path between call and report; each
    // request body is applied whole, at most once, exactly once where success is reported and never where Failed is
    // reported (RFC 7252, sections 4.2, 4.5, 5.3.2, 5.8 and 5.9; RFC 7641; RFC 7959).
    ensures agrees { by_clocks.InLegalRuns Agrees }
    // .. and not long before: at an event at which the client's clock showed at most 252,000 ms less than at the report
    // (RFC 7252, section 4.8.2).
    ensures fresh { (c : Clocks) (config : Config) (events : List Event) (turns : List Turn)
        → RecordOf config events turns
        → by_clocks.Legal c config turns
        → AreFresh config (λ past t. c.client (length past)) (exchange_lifetime + layers.max_gain) turns }
    // A GET makes at most as many exchanges as 4 passes over the blocks of the longest body, in blocks of 16 bytes:
    // 16,384 where the ends' limits are as usual; an upload at most one pass, and each other call one (RFC 7959,
    // sections 2.4 and 2.5; profile).
    ensures bounded { by_clocks.InLegalRuns AreBounded }
    // Whatever can come has a turn, with which the record goes on, however late it is and whatever the clocks show; and
    // an input that is refused memory is lost.
    ensures no_fault { OfRecords NeverFaults }
    // In a smooth run, in which nothing is lost and nothing is late, and nothing is observed, calls are answered
    // smoothly: no exchange is open for more than 2,000 ms where no path has a delay, and else for more than 2,999 ms
    // and the longest delay, which counts as 1,001 ms at least; each ends by an answer, each call is reported, a GET
    // reports what its path holds, where it has no ETag and no Accept, that stays the same, and the client's limit is
    // at least the server's, and any other call the code of a response to it, and it is applied where that says so (RFC
    // 7252, sections 4.2, 5.2 and 5.8; RFC 7959, section 2).
    ensures smooth { OfLegalRuns (λ config turns. Smooth config turns → FewTold config turns → NoneObserved turns
        → AnsweredSmoothly config turns) }
    // So where no path has a delay, 8 calls of one block are all reported within 24 s (RFC 7252, section 5.2; the
    // numbers are a profile).
    ensures eight { OfLegalRuns (λ config turns. config.delays ≡ [] → Smooth config turns → FewTold config turns
        → NoneObserved turns → EightAreReported config turns) }
    // In a smooth run in which no stranger sends anything, or few notifications are sent, and in which the client takes
    // on one observation and nothing else, of a path whose representations fit one block, and the client's limit is at
    // least the server's, the last value is what the path holds, once that has stood for 5,000 ms and a first value was
    // reported 5,000 ms before, while the observation goes on (RFC 7641, sections 1.3, 3.4 and 4.5).
    ensures current { OfLegalRuns (λ config turns. SmoothFewTold config turns → CurrentAlone config turns) }
{
    open_law();
    sent_law();
    answered_law();
    reported_law();
    watch_law();
}
