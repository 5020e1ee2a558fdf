//! The laws of smooth runs.
ghost use Rattle.std.specs.Prelude.{map};
ghost use Rattle.coap_smooth.specs.AtOnce.{OldWait};
ghost use Rattle.coap_smooth.specs.BlockRuns.{PutsInBlocks};
ghost use Rattle.coap_smooth.specs.ByDue.{ClientByDue, ServerByDue};
ghost use Rattle.coap_smooth.specs.CurrentRuns.{ShowsLate, StaysOld};
ghost use Rattle.coap_smooth.specs.EndsSmoothly.{SentByAnswers, YoungEndByAnswers};
ghost use Rattle.coap_smooth.specs.HasIds.{HasIds};
ghost use Rattle.coap_smooth.specs.InTime.{AllInTime, FewArrive};
ghost use Rattle.coap_record.specs.Legal.{OfLegalRuns};
ghost use Rattle.coap_smooth.specs.PlainRuns.{ShowsPlain};
ghost use Rattle.coap_smooth.specs.Prompt.{AllPrompt};
ghost use Rattle.coap_smooth.specs.Received.{AreReceived};
ghost use Rattle.coap_record.specs.Record.{Turn, entries_of};
ghost use Rattle.coap_smooth.specs.Reported.{AreReported};
ghost use Rattle.coap_smooth.specs.Separate.{SeparateEnds, TicksAnswer};
ghost use Rattle.coap_smooth.specs.Smooth.{FewTold, KeepUp, NoneObserved, Smooth, TicksOften};
ghost use Rattle.coap_smooth.specs.SmoothAnswers.{AllAnswer, ChangesAnswered, GetsHeld};
ghost use Rattle.coap_smooth.specs.Young.{AreYoung};
ghost use Rattle.coap_smooth.specs.SmoothGaps.{AreClose, TimesOutRoughly};
ghost use Rattle.coap_smooth.specs.SmoothRuns.{DefersByDue, DefersLate, DefersLongest, PutsLate, Unanswered};
ghost use Rattle.coap_smooth.specs.TakenInTime.{AllTakenInTime};
ghost use Rattle.coap_smooth.specs.TicksLeave.{KeepsUpInTime, TicksInTime, TicksLeaveNone};

use coap_client_laws::{client_exchanges_law, client_follows_law, client_law, client_values_law};
use coap_exchange::answerer_law;
use coap_layer::{channel_law, layer_law};
use coap_server_laws::server_law;

/// Smooth runs, in which nothing is lost and nothing is late, and a run that isn't smooth.
pub fn smooth_witness()
    // A GET whose path has a delay is answered, where each datagram and each tick comes at its last moment (RFC 7252,
    // section 5.2.2) ..
    ensures late { DefersLate }
    // .. and where its exchange is open for 12,999 ms.
    ensures longest { DefersLongest }
    // The same in a smooth run in which each end ticks only when something is due, so nothing happens for 9,999 ms.
    ensures by_due { DefersByDue }
    // A PUT to such a path is applied, once, and its success is reported (RFC 7252, sections 5.2.2 and 5.8.3).
    ensures put { PutsLate }
    // A run in which a POST times out is not smooth ..
    ensures rough { TimesOutRoughly }
    // .. and its call is not answered smoothly.
    ensures unanswered { Unanswered }
    // A run in which a value comes 4,000 ms after the change that it shows, and no earlier, and is the last one, as is
    // promised, 5,000 ms after it (RFC 7641, section 4.5).
    ensures shown { ShowsLate }
    // The same of a path whose notifications go in NONs, of which one comes at its last moment (RFC 7641, section 4.5).
    ensures plain { ShowsPlain }
    // A PUT whose body goes in two blocks is applied once, whole, and reported when it is promised (RFC 7959, section
    // 2.5).
    ensures blocks { PutsInBlocks }
    // A run in which a notification is lost: the last value stays an old one.
    ensures old { StaysOld }
{}

/// When an end of a run has nothing to do: so its `due` says, and a program that asks it ticks in time.
pub fn due_law()
    // The client has nothing to do, in the sense of a smooth run, exactly where its `due` says that a tick does nothing
    // (RFC 7252, sections 4.2, 4.7 and 5.2.2).
    ensures client { OfLegalRuns ClientByDue }
    // The server has nothing to do, in that sense, exactly where its `due` says so (RFC 7252, sections 4.2 and 5.2.2;
    // RFC 7641, section 4.5).
    ensures server { OfLegalRuns ServerByDue }
    // Ends that tick each 1,000 ms, whether or not something is due, keep up as a smooth run asks (profile).
    ensures seconds { OfLegalRuns (λ config turns. TicksOften turns → KeepUp config turns) }
{}

/// What becomes of the datagrams of a run.
pub fn received_law()
    // In a run in which each end ticks each 1,000 ms no event is more than 1,000 ms behind the one before.
    ensures close { OfLegalRuns (λ config turns. TicksOften turns → AreClose (map (λ (t : Turn). t.event) turns)) }
    // In a smooth run each that is given out to an end is fed to it, at most 1,000 ms later.
    ensures prompt { OfLegalRuns (λ config turns. Smooth config turns → AllPrompt config.addresses turns) }
    // What an end is fed, its message layer receives at that moment (RFC 7252, section 4.2).
    ensures received { OfLegalRuns AreReceived }
{}

/// What becomes of the messages of a smooth run.
pub fn open_law()
    // What one message layer sends comes to the other's, at most 1,000 ms later ..
    ensures arrive { OfLegalRuns (λ config turns. Smooth config turns → AllInTime config turns) }
    // .. and in EXCHANGE_LIFETIME fewer messages come than it remembers (RFC 7252, section 4.5).
    ensures few { OfLegalRuns (λ config turns. Smooth config turns → FewArrive config turns) }
    // Each Confirmable message is taken within 1,000 ms, and each of the server's is over within 2,000 (RFC 7252,
    // section 4.2).
    ensures taken { OfLegalRuns (λ config turns. Smooth config turns → AllTakenInTime config turns) }
    // Where nothing is observed and each exchange is young, it ends by an answer: by no Reset, no Timeout (a request is
    // acknowledged within 2,000 ms) and no NoResponse (sections 4.2 and 5.2.2).
    ensures by_answers { OfLegalRuns (λ config turns. Smooth config turns → NoneObserved turns
        → YoungEndByAnswers config turns) }
    // Where nothing is observed, the request of an exchange that is open for more than 2,000 ms had to wait at the
    // server, and waits still, or was answered since: any other is answered in its acknowledgement, and that comes
    // (sections 4.2, 5.2.1 and 5.2.2).
    ensures at_once { OfLegalRuns (λ config turns. Smooth config turns → NoneObserved turns → OldWait config turns) }
    // .. and a response in a CON of its own ends the exchange that it answers within 1,000 ms (section 5.2.2).
    ensures separate { OfLegalRuns (λ config turns. Smooth config turns → NoneObserved turns
        → SeparateEnds config turns) }
    // What a tick of the server answers goes out in such a CON (section 5.2.2).
    ensures ticks { OfLegalRuns (λ config turns. TicksAnswer config (entries_of turns)) }
    // .. and behind the ticks of a moment nothing is left that can be answered, unless no Message ID is free (sections
    // 4.7 and 5.2.2).
    ensures leaves { OfLegalRuns TicksLeaveNone }
    // Where it ticks each 1,000 ms, it ticks less than 1,000 ms after each moment ..
    ensures often { OfLegalRuns (λ config turns. TicksOften turns → TicksInTime turns) }
    // .. and in each smooth run it does so, or has nothing to do then.
    ensures keeps_up { OfLegalRuns (λ config turns. Smooth config turns → KeepsUpInTime config turns) }
    // Where nothing is observed, and no stranger sends anything or the server sends few notifications, a Message ID is
    // free after each call of the server (section 4.4) ..
    ensures ids { OfLegalRuns (λ config turns. Smooth config turns → FewTold config turns → NoneObserved turns
        → HasIds config turns) }
    // .. so no exchange is open for longer than the longest delay and 2,999 ms, and for more than 2,000 ms where no
    // path has a delay (sections 4.2 and 5.2.2).
    ensures young { OfLegalRuns (λ config turns. Smooth config turns → FewTold config turns → NoneObserved turns
        → AreYoung config turns) }
{
    channel_law();
    layer_law();
    client_exchanges_law();
    client_follows_law();
    client_values_law();
    answerer_law();
    server_law();
}

/// Which requests of a smooth run are sent.
pub fn sent_law()
    // Where nothing is observed in a smooth run and each exchange ends by an answer, each request that is asked for is
    // sent: a Message ID and a token are free for it (RFC 7252, sections 4.4 and 5.3.1).
    ensures all { OfLegalRuns (λ config turns. Smooth config turns → NoneObserved turns → SentByAnswers config turns) }
{
    client_exchanges_law();
    client_follows_law();
}

/// When the calls of a smooth run are reported.
pub fn reported_law()
    // Where nothing is observed, each exchange is young and ends by an answer, and each request is sent, a call is
    // reported that was taken: behind each event so long after it that each request which is sent for it, or for a call
    // before it, can have waited for a tick and been answered (RFC 7252, sections 4.7 and 5.2).
    ensures reported { OfLegalRuns (λ config turns. Smooth config turns → AreYoung config turns → AllAnswer config turns
        → AreReported config turns) }
{
    client_law();
}

/// What the calls of a run come to in which each exchange ends by an answer, each request is sent and nothing is
/// observed.
pub fn answered_law()
    // A GET without ETag and Accept reports what its path holds, where that stays the same since the call and the
    // client joins bodies that are as long as the server's (RFC 7252, section 5.8.1; RFC 7959, section 2.4).
    ensures gets { OfLegalRuns (λ config turns. AllAnswer config turns → GetsHeld config (entries_of turns)) }
    // What is reported of another call is the code of a response that the server made to it; and where that says that
    // it is applied, it was, after the call (RFC 7252, sections 5.8 and 5.9).
    ensures changes { OfLegalRuns (λ config turns. AllAnswer config turns → ChangesAnswered config (entries_of turns)) }
{}
