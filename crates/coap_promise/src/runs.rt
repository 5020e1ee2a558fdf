//! Runs that are written out, byte for byte, and stand in these laws.
ghost use Rattle.std.specs.Prelude.{List};
ghost use Rattle.coap_promise.specs.AgeRuns.{Oldest, OldestByTwo};
ghost use Rattle.coap_promise.specs.ClockRuns.{HourAhead, PutsTwice};
ghost use Rattle.coap_record.specs.Events.{Config, Event};
ghost use Rattle.coap_record.specs.Legal.{IsConfig};
ghost use Rattle.coap_promise.specs.GoesOn.{GoesOn, MayRun, HasRecord};
ghost use Rattle.coap_promise.specs.LegalRuns.{Gets, Defers, TimesOut};
ghost use Rattle.coap_promise.specs.ObservationRuns.{Observed};
ghost use Rattle.coap_promise.specs.LateRuns.{HoldsBack};

/// There are records: what the laws say of legal runs, they say of each list of events that are legal one after the
/// other.
pub fn runs_law()
    // A record goes on with each further event that is legal after it, and nothing is refused.
    ensures goes { (config : Config) → GoesOn config }
    // Events that may happen one after the other have a record in which nothing is refused.
    ensures runs { (config : Config) → IsConfig config → (events : List Event) → MayRun config events
        → HasRecord config events }
{}

/// Legal runs: what this crate says of the whole world, it says of something. Others are run as scripts: `run` answers
/// a record for legal events, and for no others.
pub fn witness_law()
    // A client gets what the server holds (RFC 7252, section 5.2.1).
    ensures gets { Gets }
    // A client gets what the server holds by a separate response (RFC 7252, section 5.2.2).
    ensures defers { Defers }
    // A client observes, and takes two values (RFC 7641, section 1.3).
    ensures observed { Observed }
    // A POST is applied after its Timeout was reported (RFC 7252, sections 4.2 and 4.8.2).
    ensures times_out { TimesOut }
    // An upload waits until no block of a failed one can come, and is applied alone (RFC 7252, section 4.8.2; RFC 7959,
    // section 2.5).
    ensures holds_back { HoldsBack }
{}

/// Legal runs by two clocks, and as old a body as may be reported: what is promised over clocks is promised of
/// something, and with no number that is too high.
pub fn clocks_witness_law()
    // A client observes and gets from a server whose clock is an hour ahead and makes a step of 5 s: that is legal by
    // their two clocks, and by no one clock.
    ensures hour { HourAhead }
    // By clocks that don't keep pace, by 100,001 ms, a PUT is applied twice (RFC 7252, sections 4.5 and 4.8.2).
    ensures twice { PutsTwice }
    // A body that is reported is 247,000 ms old by one clock: the bound is reached (RFC 7252, section 4.8.2) ..
    ensures oldest { Oldest }
    // .. and 252,000 ms by two that keep pace.
    ensures oldest_by_two { OldestByTwo }
{}
