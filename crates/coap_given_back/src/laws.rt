//! How long an exchange is open, and when a call is reported, by what the client does alone.
ghost use Rattle.std.specs.Prelude.{List, ℕ};
ghost use Rattle.coap_client_laws.specs.ClientHolds.{ClientHolds};
ghost use Rattle.coap_exchange.specs.AskerLaw.{ExchangeLaw};
ghost use Rattle.coap_exchange.specs.AskerTrace as asker;
ghost use Rattle.coap_layer.specs.declared.setup.Setup.{Setup};
ghost use Rattle.coap_types.specs.declared.endpoint.Endpoint.{Endpoint};
ghost use Rattle.coap_given_back.specs.AskerYoung as exchanges;
ghost use Rattle.coap_given_back.specs.GivenBack.{AreGivenBack, AreGivenBackAlone, AreGivenBackInAll};
ghost use Rattle.coap_given_back.specs.GivenBack.{AreGivenBackInLine};
ghost use Rattle.coap_given_back.specs.GivenBackRuns.{WaitsLongest};
ghost use Rattle.coap_given_back.specs.InRuns as in_runs;
ghost use Rattle.coap_given_back.specs.KeepsUp.{AreYoung};
ghost use Rattle.coap_promise.specs.AtAnyTime.{Legal};
ghost use Rattle.coap_promise.specs.Clocks.{Clocks};
ghost use Rattle.coap_record.specs.Events.{Config, Event};
ghost use Rattle.coap_record.specs.Record.{RecordOf, Turn};

use coap_client_laws::client_law;

/// How long an exchange is open, where steps are late by a number of milliseconds at most.
pub fn young_law()
    // An exchange of a client's side that keeps up is open for less than 340,000 ms and twice the lateness: it is
    // acknowledged in the first 93,000 and a late step, or fails; and is answered in 247,000 after that, or ends (RFC
    // 7252, sections 4.2 and 5.2.2).
    ensures asker { (server : Endpoint) (setup : Setup) (late : ℕ) (t : List asker.Call) → ExchangeLaw server setup t
        → exchanges.AreYoung server setup late t }
    // An exchange of a client that keeps up by its own clock is open for less than that, too.
    ensures client { (late : ℕ) → ClientHolds (λ server sizes setup t. AreYoung server sizes setup late t) }
    // In each run, by any clocks, in which datagrams come at any time or never, no exchange is open for longer.
    ensures runs { (c : Clocks) (config : Config) (events : List Event) (turns : List Turn)
        → RecordOf config events turns → Legal c config turns → (late : ℕ) → in_runs.AreYoung c config late turns }
{}

/// When a call is reported, where the client keeps up since it was taken.
pub fn given_back_law()
    // Whatever comes, each call is reported: less than 340,000 ms and twice the lateness pass from the call to the
    // first request that is sent then, from a request to the next, and from the last one to the report (RFC 7252,
    // sections 4.2, 4.7 and 5.2.2).
    ensures sent { (late : ℕ) → ClientHolds (λ server sizes setup t. AreGivenBack server sizes setup late t) }
    // A call is reported within a time by the number of those that waited before it, and of further requests since.
    ensures in_line { (late : ℕ) → ClientHolds (λ server sizes setup t. AreGivenBackInLine server sizes setup late t) }
    // Where no request is sent for a further block of a notification, the further ones are those of the calls: for each
    // call as often as it makes an exchange, at most.
    ensures in_all { (late : ℕ) → ClientHolds (λ server sizes setup t. AreGivenBackInAll server sizes setup late t) }
    // Where none is open and no upload is held back as the call is taken, the first request goes out at the next step.
    ensures alone { (late : ℕ) → ClientHolds (λ server sizes setup t. AreGivenBackAlone server sizes setup late t) }
    // In each run, by any clocks, in which datagrams come at any time or never, each call is reported in that time by
    // the client's own clock.
    ensures runs { (c : Clocks) (config : Config) (events : List Event) (turns : List Turn)
        → RecordOf config events turns → Legal c config turns → (late : ℕ)
        → in_runs.AreGivenBack c config late turns }
{
    client_law();
}

/// A run in which a call is given back at the last moment.
pub fn given_back_witness()
    // A GET whose response never comes ends by NoResponse 310,998 ms after its request, where its initial timeout is
    // the shortest and both steps are late by 1,000 ms (RFC 7252, sections 4.2 and 5.2.2).
    ensures { WaitsLongest }
{}
