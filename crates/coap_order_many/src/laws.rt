//! The laws of a run of many clients whose calls are made in any order.
ghost use Rattle.std.specs.Prelude.{List};
ghost use Rattle.coap_many.specs.Agrees.{AllOwned, EachIsBounded};
ghost use Rattle.coap_many.specs.Clients.{Config};
ghost use Rattle.coap_many.specs.Clocks.{Clocks};
ghost use Rattle.coap_many.specs.DoneReads.{ObservesWhatWasDone, ReadsWhatWasDone};
ghost use Rattle.coap_many.specs.Entries.{Entry};
ghost use Rattle.coap_many.specs.FailedAnswered.{FailedAnswered, NeverFailed};
ghost use Rattle.coap_many.specs.Laws.{AgainRises, InRealTime, NeverBack, OneMaker};
ghost use Rattle.coap_many.specs.Points.{AtMostOnePoint, HavePoints};
ghost use Rattle.coap_many.specs.Winners.{OneCallWins, OneRequestWins, RequestsMake};
ghost use Rattle.coap_order_many.specs.Agrees.{EachAgrees, EachIsFresh, InRuns};
ghost use Rattle.coap_order_many.specs.Run.{LegalRun, RunOf};

use coap_client_laws::client_follows_law;

/// What any number of clients and a server come to together, in whatever order their programs call them.
pub fn order_of_many_law()
    // Of what each client and the server see of the run all is promised that `order_law` promises of one client.
    ensures each { InRuns EachAgrees }
    // A client reports only what its path held when its own clock showed at most 252,000 ms less, at a call of the run
    // (RFC 7252, section 4.8.2).
    ensures fresh { (c : Clocks) (config : Config) (run : List Entry) → RunOf config run → LegalRun config c run
        → EachIsFresh c config run }
    // No call of any client of the run makes more exchanges than a call of one client alone.
    ensures bounded { InRuns EachIsBounded }
    // Each body, valid representation, success and failure that a client reports took effect at one call of an end,
    // between its own call and its report.
    ensures points { InRuns HavePoints }
    // Each failure that a client reports in the run has the code of a response that the server made before, to a
    // request of that call.
    ensures failed { InRuns FailedAnswered }
    // In the whole run the server applies nothing for a call whose failure any client reports.
    ensures never_failed { InRuns NeverFailed }
    // In the whole run the server applies at most one request for each call of each client.
    ensures once { InRuns AtMostOnePoint }
    // Each request that the server applies in the run belongs to exactly one call of exactly one client, or its address
    // is no client's.
    ensures owned { InRuns AllOwned }
{
    client_follows_law();
}

/// So all clients share one history.
pub fn shared_history_law()
    // A call of the run whose success was reported before another call is made was applied before that, and the other
    // was not yet.
    ensures in_real_time { InRuns InRealTime }
    // A call that is made after any client reported a version of a path reads that version or a later one, in whatever
    // order the programs call (RFC 7252, section 5.10.6).
    ensures never_back { InRuns NeverBack }
    // An observation that is taken after any client reported a version of its path shows that version or later ones, in
    // whatever order the programs call (RFC 7641, section 3.4).
    ensures again_rises { InRuns AgainRises }
    // Of all requests of the run whose only If-Match is one given entity-tag of a path at most one is applied (RFC
    // 7252, section 5.10.8.1).
    ensures one_request_wins { InRuns OneRequestWins }
    // Of all calls of the run whose only If-Match is one given entity-tag of a path at most one is applied.
    ensures one_call_wins { InRuns OneCallWins }
    // A request of the run with If-None-Match is applied only where its path holds nothing (RFC 7252, section
    // 5.10.8.2).
    ensures requests_make { InRuns RequestsMake }
    // So is each call of the run with If-None-Match.
    ensures one_maker { InRuns OneMaker }
    // A call of the run that is made after a reported change of its path reads what that made, or a later version.
    ensures reads_what_was_done { InRuns ReadsWhatWasDone }
    // An observation of the run that is taken after a reported change of its path shows what that made, or later
    // versions.
    ensures observes_what_was_done { InRuns ObservesWhatWasDone }
{
    client_follows_law();
}
