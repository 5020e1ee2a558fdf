//! What becomes of an observation that runs alone in a smooth run, in which nothing is lost and nothing is late.
ghost use Rattle.std.specs.Prelude.{◌≤◌};
ghost use Rattle.coap_types.specs.Past.{Always};
ghost use Rattle.coap_client_laws.specs.Follows.LastValue.{HaveAll};
ghost use Rattle.coap_client_laws.specs.Follows.OfObservations.{Observed};
ghost use Rattle.coap_smooth.specs.Current.{Alone, CurrentAlone, FitsABlock};
ghost use Rattle.coap_smooth.specs.HadIds.{HadIds};
ghost use Rattle.coap_smooth.specs.HeldVersions.{VersionsAreNumbers, VersionsRise};
ghost use Rattle.coap_record.specs.Legal.{InLegalRuns, OfLegalRuns};
ghost use Rattle.coap_smooth.specs.NoticesCome.{AllNoticesCome, NoticesAreOfIt, NoticesGoToClient};
ghost use Rattle.coap_smooth.specs.NoticesTaken.{NoticesAreTaken, RequestsAreOfIt};
ghost use Rattle.coap_record.specs.Record.{client_of, entries_of};
ghost use Rattle.coap_smooth.specs.ShowsHeld.{AllShown};
ghost use Rattle.coap_smooth.specs.Smooth.{NoStranger, Smooth, SmoothFewTold};
ghost use Rattle.coap_smooth.specs.StillThere.{AreStillThere};

use coap_client_laws::{client_exchanges_law, client_follows_law, client_watches_law};
use coap_exchange::answerer_law;
use coap_layer::{channel_law, layer_law};
use coap_server_laws::{server_law, server_must_law};

/// What becomes of the notifications of a smooth run, and what they show.
pub fn watch_law()
    // After each event more than 1,000 ms before another, a Message ID was free for the server, whatever is observed
    // (RFC 7252, section 4.4).
    ensures ids { OfLegalRuns (λ config turns. SmoothFewTold config turns → HadIds config turns) }
    // Each notification to the client that was sent more than 1,000 ms ago came to it within 1,000 ms, behind its
    // sending (RFC 7641, section 4.5).
    ensures comes { OfLegalRuns (λ config turns. SmoothFewTold config turns → AllNoticesCome config turns) }
    // Where no stranger sends anything, each notification goes to the client (RFC 7641, section 4.2).
    ensures alone { OfLegalRuns (λ config turns. Smooth config turns → NoStranger turns
        → NoticesGoToClient config (entries_of turns)) }
    // Where the client takes on one observation alone, each notification to it is of that, under the token of its
    // registration (RFC 7641, sections 3.1 and 4.1) ..
    ensures of_it { OfLegalRuns (λ config turns. SmoothFewTold config turns → (x : Observed)
        → Alone x (client_of (entries_of turns)) → NoticesAreOfIt config x (entries_of turns)) }
    // .. each request that is served for the client is that registration, or a fetch for the observation (RFC 7959,
    // section 2.6) ..
    ensures requests { OfLegalRuns (λ config turns. SmoothFewTold config turns → (x : Observed)
        → Alone x (client_of (entries_of turns)) → RequestsAreOfIt config x (entries_of turns)) }
    // .. and, while the observation goes on, each notification to it that comes is heard as the answer to the
    // registration, or noted under its token (RFC 7641, section 3.2).
    ensures notices { OfLegalRuns (λ config turns. SmoothFewTold config turns → (x : Observed)
        → Alone x (client_of (entries_of turns)) → Always (NoticesAreTaken config x) turns) }
    // So, once a notification was taken and while the observation goes on, the server has its registration, or told in
    // the last 1,000 ms that the path is gone (RFC 7641, sections 3.6, 4.2 and 4.5).
    ensures there { OfLegalRuns (λ config turns. SmoothFewTold config turns → (x : Observed)
        → Alone x (client_of (entries_of turns)) → AreStillThere config x turns) }
    // What a path holds later is the same, or has a later version (RFC 7252, section 5.10.6) ..
    ensures rise { InLegalRuns VersionsRise }
    // .. which follows the base, in a smooth run, by its own sequence number (RFC 7641, section 4.4).
    ensures numbers { OfLegalRuns (λ config turns. SmoothFewTold config turns
        → VersionsAreNumbers config (entries_of turns)) }
    // What is taken of one observation that runs alone, of a path whose representations fit one block, shows all of
    // what the path held as the server told it (RFC 7641, sections 3.2 and 4.2) ..
    ensures shows { OfLegalRuns (λ config turns. (x : Observed) → Alone x (client_of (entries_of turns))
        → FitsABlock config x.path (entries_of turns) → config.limits.body ≤ config.client_sizes.limit
        → AllShown config x (entries_of turns)) }
    // .. so it has all of a representation that is within the client's limit (RFC 7959, section 2.2).
    ensures have_all { OfLegalRuns (λ config turns. (x : Observed) → Alone x (client_of (entries_of turns))
        → FitsABlock config x.path (entries_of turns) → config.limits.body ≤ config.client_sizes.limit
        → HaveAll config.client_sizes x.number (client_of (entries_of turns))) }
    // And the last value is the current one: what the path holds, once that has stood for 5,000 ms (RFC 7641, sections
    // 1.3 and 4.4).
    ensures current { OfLegalRuns (λ config turns. SmoothFewTold config turns → CurrentAlone config turns) }
{
    channel_law();
    layer_law();
    answerer_law();
    client_exchanges_law();
    client_follows_law();
    client_watches_law();
    server_law();
    server_must_law();
}
