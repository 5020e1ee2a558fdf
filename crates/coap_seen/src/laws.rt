//! The promise in the words that a program sees.
ghost use Rattle.coap_seen.specs.Applied.{SeenInRuns};
ghost use Rattle.coap_seen.specs.GoesOn.{RunsGoOn};
ghost use Rattle.coap_seen.specs.Many.{HaveOneHistory};
ghost use Rattle.coap_seen.specs.Records.{RecordsAreRuns, RunsAreRecords, SomeRunTells};
ghost use Rattle.coap_seen.specs.Sound.{EndsAreSound};

use coap_client_laws::{client_follows_law, client_law, client_rests_law};
use coap_promise::{applied_law, clocks_witness_law, fresh_law, rising_law};
use coap_server_laws::server_law;

/// Why the premise of `seen_law` holds of what a program does, whatever the laws of the ends say.
pub fn ends_law()
    // What `new` makes has no calls; each step of a method adds one; calls that lead to an end are calls of it; what
    // only asks may be left out; there is an answer to each call, and just one thing that would be answered.
    ensures sound { EndsAreSound }
{
    client_law();
    client_rests_law();
    server_law();
}

/// The promise in the words that a program sees of a client and a server: the calls that it makes of them, what they
/// answer, and what they would answer.
pub fn seen_law()
    // What is told was held at most 252 s before, values rise, and what is asked is applied whole, at most once, once
    // where Done is told, never where Failed is told; nothing else changes what the server holds.
    ensures seen { SeenInRuns }
{
    client_law();
    client_follows_law();
    applied_law();
    fresh_law();
    rising_law();
}

/// The promise in the words of calls and answers, for any number of clients, in one history.
pub fn history_law()
    // Each client is promised what one client is promised; all see one history of the server, in which what any of them
    // is told has its point between call and report.
    ensures one { HaveOneHistory }
{
    seen_law();
}

/// Which runs there are.
pub fn runs_law()
    // Whatever an end is handed next, there is a turn in which it is answered, and the run goes on.
    ensures goes_on { RunsGoOn }
    // A record whose events are legal by two clocks is a run, and a run is one of these.
    ensures records { RecordsAreRuns }
    // A run is a record whose events are legal by two clocks.
    ensures back { RunsAreRecords }
    // There is a run by two clocks in which a body is told.
    ensures some { SomeRunTells }
{
    clocks_witness_law();
}
