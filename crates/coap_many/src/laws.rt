//! The laws of a run of many clients.
ghost use Rattle.std.specs.Prelude.{List};
ghost use Rattle.coap_many.specs.Agrees.{AllOwned, EachAgrees, EachIsBounded};
ghost use Rattle.coap_many.specs.Clients.{Config};
ghost use Rattle.coap_many.specs.Clocks.{Clocks};
ghost use Rattle.coap_many.specs.DoneReads.{ObservesWhatWasDone, ReadsWhatWasDone};
ghost use Rattle.coap_many.specs.Entries.{Turn};
ghost use Rattle.coap_many.specs.Events.{Event};
ghost use Rattle.coap_many.specs.FailedAnswered.{FailedAnswered, NeverFailed};
ghost use Rattle.coap_many.specs.Fresh.{EachIsFresh};
ghost use Rattle.coap_many.specs.GoesOn.{Begins, GoesOn, OfRecords};
ghost use Rattle.coap_many.specs.Laws.{AgainRises, InRealTime, NeverBack, OneMaker};
ghost use Rattle.coap_many.specs.Legal.{Legal};
ghost use Rattle.coap_many.specs.LegalRuns.{InLegalRuns};
ghost use Rattle.coap_many.specs.LockRun.{Locks};
ghost use Rattle.coap_many.specs.Lost.{RefusedAreLost};
ghost use Rattle.coap_many.specs.Points.{AtMostOnePoint, HavePoints};
ghost use Rattle.coap_many.specs.ReadsBehind.{ReadsBehind};
ghost use Rattle.coap_many.specs.Record.{RecordOf};
ghost use Rattle.coap_many.specs.Smooth.{AreOneClock, EachHasEight, EachIsAnswered, EachIsCurrent};
ghost use Rattle.coap_many.specs.TwoClients.{Crosses};
ghost use Rattle.coap_many.specs.Views.{ViewsAreRecords, ViewsAreRuns};
ghost use Rattle.coap_many.specs.Winners.{OneCallWins, OneRequestWins, RequestsMake};

use coap_client_laws::client_follows_law;
use coap_world::{agreement, runs_law};

/// What one client and the server see of a run of many.
pub fn view_law()
    // What one client and the server see of a record of many is a record of the world of these two.
    ensures records { ViewsAreRecords }
    // What they see of a legal run of many is a run that is legal by the clocks of these two.
    ensures runs { ViewsAreRuns }
{}

/// There are records of many: one of no event, and with `agreement_of_many` one of each list of events that can come
/// one after the other.
pub fn begins_law()
    // Each configuration in range has a record of no event.
    ensures begins { Begins }
{
    runs_law();
}

/// What any number of clients and a server come to together, in one history that all share.
pub fn agreement_of_many()
    // Each client and the server keep every promise that one client and a server keep, whatever the other clients do.
    ensures each { InLegalRuns EachAgrees }
    // A client reports only what its path held when that client's own clock showed at most 252,000 ms less (RFC 7252,
    // section 4.8.2).
    ensures fresh { (c : Clocks) (config : Config) (events : List Event) (turns : List Turn)
        → RecordOf config events turns → Legal c config turns → EachIsFresh c config turns }
    // No call of any client makes more exchanges than a call of one client alone.
    ensures bounded { InLegalRuns EachIsBounded }
    // Each body, valid representation, success and failure that a client reports took effect at one entry between its
    // call and its report.
    ensures points { InLegalRuns HavePoints }
    // Each failure that a client reports has the code of a response that the server made before, to a request of that
    // call.
    ensures failed { InLegalRuns FailedAnswered }
    // The server applies nothing for a call whose failure any client reports, before or after.
    ensures never_failed { InLegalRuns NeverFailed }
    // The server applies at most one request for each call of each client.
    ensures once { InLegalRuns AtMostOnePoint }
    // Each request that the server applies belongs to exactly one call of exactly one client, or its address is no
    // client's.
    ensures owned { InLegalRuns AllOwned }
    // Each event that can come has a turn at each position of a record of many, and the record goes on, however late it
    // is.
    ensures no_fault { OfRecords GoesOn }
    // An end that is refused memory for an input loses that input; of ticks, those before the refused one stay.
    ensures lost { RefusedAreLost }
    // By one clock, where what a client and the server see goes smoothly, the calls of that client are answered
    // smoothly, as `agreement` says of one client, and each is reported in time, whatever the other clients meet.
    ensures smooth { (c : Clocks) (config : Config) (events : List Event) (turns : List Turn)
        → RecordOf config events turns → Legal c config turns → AreOneClock config c → EachIsAnswered config turns }
    // So where no path has a delay, 8 calls of that client, of one block each, are all reported within 24 s (RFC 7252,
    // section 5.2; the numbers are a profile).
    ensures eight { (c : Clocks) (config : Config) (events : List Event) (turns : List Turn)
        → RecordOf config events turns → Legal c config turns → AreOneClock config c → EachHasEight config turns }
    // .. and the last value of an observation that a client takes on alone is the current one, in the time that
    // `agreement` says of one client (RFC 7641, sections 1.3, 3.4 and 4.5).
    ensures current { (c : Clocks) (config : Config) (events : List Event) (turns : List Turn)
        → RecordOf config events turns → Legal c config turns → AreOneClock config c → EachIsCurrent config turns }
{
    client_follows_law();
    agreement();
}

/// The order of operations is that of real time.
pub fn in_real_time_law()
    // A call whose success was reported before another call is made was applied before that, and the other was not yet.
    ensures in_real_time { InLegalRuns InRealTime }
{
    agreement_of_many();
}

/// Reads don't go back.
pub fn never_back_law()
    // A call that is made after any client reported a version of a path reads that version or a later one (RFC 7252,
    // section 5.10.6).
    ensures never_back { InLegalRuns NeverBack }
{
    agreement_of_many();
}

/// Nor do the values of an observation that is taken anew.
pub fn again_rises_law()
    // An observation that is taken after any client reported a version of its path shows that version or later ones
    // (RFC 7641, section 3.4).
    ensures again_rises { InLegalRuns AgainRises }
{
    agreement_of_many();
}

/// One wins where several ask for one entity-tag: a lock is given back once, and a counter loses no step.
pub fn one_winner_law()
    // The server applies at most one request whose only If-Match is one given entity-tag of a path, from whatever
    // address (RFC 7252, section 5.10.8.1).
    ensures requests { InLegalRuns OneRequestWins }
    // At most one call of one client is applied of all calls whose only If-Match is one given entity-tag of a path.
    ensures calls { InLegalRuns OneCallWins }
{
    client_follows_law();
    agreement_of_many();
}

/// One makes what is not there: a lock is taken once.
pub fn one_maker_law()
    // The server applies a request with If-None-Match, from whatever address, only where its path holds nothing (RFC
    // 7252, section 5.10.8.2).
    ensures requests { InLegalRuns RequestsMake }
    // So it does of each call with If-None-Match, of whichever client.
    ensures calls { InLegalRuns OneMaker }
{
    agreement_of_many();
}

/// Whoever asks after a success reads what was done, or what came later.
pub fn reads_what_was_done_law()
    // A call made after a reported change of its path reads what that made, or a later version; after a DELETE, nothing
    // or a later one.
    ensures calls { InLegalRuns ReadsWhatWasDone }
    // An observation that is taken after a reported change of its path shows what that made, or later versions.
    ensures observations { InLegalRuns ObservesWhatWasDone }
{
    agreement_of_many();
}

/// Legal runs of two and three clients, byte for byte: what this crate says of runs of many, it says of something.
pub fn many_witness_law()
    // Requests of two clients are in flight at one moment with one Message ID and one token, and each client reports
    // its own answer (RFC 7252, sections 4.4 and 5.3.1).
    ensures crosses { Crosses }
    // Three clients ask for a lock, where a response is lost and a DELETE is repeated: never two hold it by what they
    // were told, whoever does has its name there, and one is told 4.12 (RFC 7252, sections 4.5, 5.10.8.1 and 5.10.8.2).
    ensures lock { Locks }
    // A client that asks after another one was told that its PUT is done reads what that put (RFC 7252, section 5.8).
    ensures behind { ReadsBehind }
{}
