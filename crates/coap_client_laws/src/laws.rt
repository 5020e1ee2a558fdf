//! What follows from the law of a client, for its whole history.
ghost use Rattle.std.specs.Prelude.{List, [], ◌++◌, ◌↔◌, ◌∷◌, ◌≡◌};
ghost use Rattle.coap_block.specs.Sizes.{Sizes};
ghost use Rattle.coap_client.specs.Law.{ClientLaw, layer_of};
ghost use Rattle.coap_client.specs.Led.{Led, State, Step, fresh_state, state_left};
ghost use Rattle.coap_client.specs.Places.{InOnePlace};
ghost use Rattle.coap_client.specs.Trace.{Call};
ghost use Rattle.coap_client_laws.specs.ClientHolds.{ClientHolds};
ghost use Rattle.coap_client_laws.specs.Examples.HoldScenes.{HoldScenes};
ghost use Rattle.coap_client_laws.specs.Examples.Scenes.{Scenes};
ghost use Rattle.coap_client_laws.specs.Follows.Acked.{AreAcked};
ghost use Rattle.coap_client_laws.specs.Follows.Answered.{AreAnswered, AreResting, NoneAfter, ReportedOnce};
ghost use Rattle.coap_client_laws.specs.Follows.AnswersLastRequest.{AnswersLast};
ghost use Rattle.coap_client_laws.specs.Follows.Apart.{BlocksApart};
ghost use Rattle.coap_client_laws.specs.Follows.Begins.{BeginAtOnce, ConsAreRequests};
ghost use Rattle.coap_client_laws.specs.Follows.Blocks.{SendsPieces};
ghost use Rattle.coap_client_laws.specs.Follows.Bodies.{BodiesAreWhole};
ghost use Rattle.coap_client_laws.specs.Follows.Bounds.{AreBounded, AskOnce};
ghost use Rattle.coap_client_laws.specs.Follows.CallsAlone.{CallsAlone};
ghost use Rattle.coap_client_laws.specs.Follows.Codes.{ReportsCodes};
ghost use Rattle.coap_client_laws.specs.Follows.Continued.{AreContinued};
ghost use Rattle.coap_client_laws.specs.Follows.Ended.{AreOver};
ghost use Rattle.coap_client_laws.specs.Follows.Ends.{AllEnds};
ghost use Rattle.coap_client_laws.specs.Follows.Exact.{IsExact};
ghost use Rattle.coap_client_laws.specs.Follows.Fetches.{AllFetchFirst, AllWant};
ghost use Rattle.coap_client_laws.specs.Follows.Free.{SentWhereAnswered, SentWhereFewEnd};
ghost use Rattle.coap_client_laws.specs.Follows.FromServer.{AreFromServer};
ghost use Rattle.coap_client_laws.specs.Follows.Gives.{GivesInOrder};
ghost use Rattle.coap_client_laws.specs.Follows.GoesOn.{GoesOn};
ghost use Rattle.coap_client_laws.specs.Follows.HandedUp.{AreHandedUp};
ghost use Rattle.coap_client_laws.specs.Follows.Holds.{AllHold};
ghost use Rattle.coap_client_laws.specs.Follows.LastValue.{LastIsNewest};
ghost use Rattle.coap_client_laws.specs.Follows.Live.{AreThere, AreWatched, CancelsAreTaken, HaveTokens};
ghost use Rattle.coap_client_laws.specs.Follows.Live.{RegisteredOnce, StayLive, TokensAreKept};
ghost use Rattle.coap_client_laws.specs.Follows.Newer.{AreNewer};
ghost use Rattle.coap_client_laws.specs.Follows.NoneFetched.{NoneFetched};
ghost use Rattle.coap_client_laws.specs.Follows.Noted.{AreNoted, AreNotedAt};
ghost use Rattle.coap_client_laws.specs.Follows.Noticed.{AreNoticed, AreShownAtOnce, NoticesAreHeard};
ghost use Rattle.coap_client_laws.specs.Follows.Noticed.{RegistrationsAreAnswered};
ghost use Rattle.coap_client_laws.specs.Follows.Notified.{AreTaken};
ghost use Rattle.coap_client_laws.specs.Follows.Numbers.{NumbersOnce};
ghost use Rattle.coap_client_laws.specs.Follows.OfAnswers.{AreByAnswers};
ghost use Rattle.coap_client_laws.specs.Follows.OfCalls.{AreOfCalls, OthersAreGets};
ghost use Rattle.coap_client_laws.specs.Follows.OfObservations.{AreOfObservations};
ghost use Rattle.coap_client_laws.specs.Follows.Open.{AllEndInTime, AnswersAreHeard, HearsOfOpen, OpenRuns};
ghost use Rattle.coap_client_laws.specs.Follows.Order.{AreInOrder, HeardOnce, OneLast};
ghost use Rattle.coap_client_laws.specs.Follows.Replied.{RepliesToCons};
ghost use Rattle.coap_client_laws.specs.Follows.Rests.{ComesToRest, TicksEnd};
ghost use Rattle.coap_client_laws.specs.Follows.Rising.{ValuesRise};
ghost use Rattle.coap_client_laws.specs.Follows.Sendings.{NoNons};
ghost use Rattle.coap_client_laws.specs.Follows.Table.{ReportsByTable};
ghost use Rattle.coap_client_laws.specs.Follows.Taken.{AllTaken};
ghost use Rattle.coap_client_laws.specs.Follows.Tokens.{OneConOrCancel, OneOfToken, OwnTokens, ShortTokens};
ghost use Rattle.coap_client_laws.specs.Follows.Types.{AreOfTypes};
ghost use Rattle.coap_client_laws.specs.Follows.Unchanged.{AreUnchanged};
ghost use Rattle.coap_client_laws.specs.Follows.Valid.{EachIsValid, ValidOfTags};
ghost use Rattle.coap_client_laws.specs.Follows.Values.{ValuesAreWhole};
ghost use Rattle.coap_client_laws.specs.Follows.Whole.{WholeAreReported};
ghost use Rattle.coap_layer.specs.Channel.{RepliesSo};
ghost use Rattle.coap_layer.specs.Follows.{CopiesInTime};
ghost use Rattle.coap_layer.specs.Machine.State.{usual};
ghost use Rattle.coap_layer.specs.Rows.{LayerLaw};
ghost use Rattle.coap_layer.specs.declared.setup.Setup.{Setup};
ghost use Rattle.coap_types.specs.Past.{Always};
ghost use Rattle.coap_types.specs.declared.endpoint.Endpoint.{Endpoint};
ghost use Rattle.coap_client_laws.specs.Examples.Histories as example;

use coap_exchange::asker_law;

/// The law of a client that transfers bodies block by block and observes: what leads to its state
/// stands in it, and what follows from it.
pub fn client_law()
    // No call at all leads to the first state of a client.
    ensures start { (server : Endpoint) (sizes : Sizes) (setup : Setup)
        → Led server sizes setup [] (fresh_state server sizes setup) }
    // A step of a client lengthens the calls that led to the state before it.
    ensures step { (server : Endpoint) (sizes : Sizes) (setup : Setup) (t : List Call) (c : Call) (old new : State)
        → Led server sizes setup t old → Step old c new → Led server sizes setup (c ∷ t) new }
    // A history that leads to a client stands in the client's law.
    ensures law { (server : Endpoint) (sizes : Sizes) (setup : Setup) (t : List Call) (s : State)
        → Led server sizes setup t s
        → ClientLaw server sizes setup t }
    // The calls of the layer beneath a client stand in its law (RFC 7252, section 4).
    ensures layer { ClientHolds (λ server sizes setup t. LayerLaw setup (layer_of server sizes setup t)) }
    // The calls of a client before some calls stand in the law too.
    ensures back { (server : Endpoint) (sizes : Sizes) (setup : Setup) (calls t : List Call)
        → ClientLaw server sizes setup (calls ++ t)
        → ClientLaw server sizes setup t }
    // The law of a client leaves each call one answer.
    ensures exact { (server : Endpoint) (sizes : Sizes) (setup : Setup) (past : List Call)
        → IsExact server sizes setup past }
    // A retransmission is of a CON that was begun at most LAST_RETRANSMISSION_MS before, with the same bytes (RFC 7252,
    // section 4.2).
    ensures copies { ClientHolds (λ server sizes setup t. CopiesInTime (layer_of server sizes setup t)) }
    // It sends no NON (RFC 7252, section 4.3).
    ensures nons { ClientHolds (λ server sizes setup t. NoNons (layer_of server sizes setup t)) }
    // It replies at once: with a Reset, or the acknowledgement of a CON (RFC 7252, section 4.2).
    ensures replies { ClientHolds (λ server sizes setup t. Always RepliesSo (layer_of server sizes setup t)) }
    // Each number that was given is in one place: it waits, runs or is live, or is gone.
    ensures places { ClientHolds (λ _ sizes _ t. InOnePlace sizes t) }
    // A number has at most one last report, and nothing is reported of it (RFC 7252, section 5.2) ..
    ensures once { ClientHolds ReportedOnce }
    // .. or sent for it after that.
    ensures none_after { ClientHolds NoneAfter }
    // It gives each number once.
    ensures numbers { ClientHolds (λ _ _ _ t. NumbersOnce t) }
    // What it takes came from the server, as a datagram that spells it (RFC 7252, section 5.3.2).
    ensures from_server { ClientHolds (λ server _ _ t. AreFromServer server t) }
    // What is heard answers the request that was sent last (RFC 7252, section 5.3.2).
    ensures answers { ClientHolds (λ _ sizes _ t. AnswersLast sizes t) }
    // It gives the reports that it made, in order, each once, but for those of a forgotten observation.
    ensures in_order { ClientHolds (λ _ sizes _ t. GivesInOrder sizes t) }
    // A body is sent block by block, each after the answer to the one before (RFC 7959, section 2.5).
    ensures pieces { ClientHolds (λ _ sizes _ t. SendsPieces sizes t) }
    // An upload that ended without a final response holds back the later ones (RFC 7252, section 4.8.2; profile).
    ensures holds { ClientHolds (λ _ sizes _ t. AllHold sizes t) }
    // A tick that does nothing leaves an exchange that is not due, an upload that is held back, or nothing (RFC 7252,
    // sections 4.2, 4.7 and 5.2.2).
    ensures resting { ClientHolds AreResting }
    // A call that was taken is reported, or waits for one of these.
    ensures answered { ClientHolds AreAnswered }
{}

/// Histories that stand in that law, with their bytes: an observation of two values, and the first
/// blocks of an upload, of which the server wants smaller ones.
pub fn client_witness()
    // A history of a client that observes, written out byte for byte, stands in the law.
    ensures observes { ClientLaw example.server example.sizes (usual 0) example.run }
    // A history of a client that uploads a body in blocks, byte for byte, stands in the law.
    ensures uploads { ClientLaw example.server example.upload_sizes (usual 0) example.upload }
    // What single calls ask and report behind others, by computation.
    ensures scenes { Scenes }
    // A body in several blocks is held back, and what waits behind it; a request in one message is not.
    ensures hold { HoldScenes }
{}

/// What follows further from the law of a client that transfers bodies block by block and observes.
pub fn client_follows_law()
    // A CON begins in the very call that sends its request for the first time (RFC 7252, section 4.2) ..
    ensures begins_now { ClientHolds BeginAtOnce }
    // .. and none is begun but for such a request (RFC 7252, section 5.2).
    ensures begins { ClientHolds ConsAreRequests }
    // Requests are sent in the order of the numbers, none of a call behind its last, and each of a call where those
    // before it were answered (RFC 7252, sections 4.7 and 5.3; RFC 7959, section 2.5).
    ensures order { ClientHolds (λ _ sizes _ t. AreInOrder sizes t) }
    // A call has one last request.
    ensures one_last { ClientHolds (λ _ sizes _ t. OneLast sizes t) }
    // What is sent has a token of at most 8 bytes that no request had before, but for a cancel, which has that of its
    // observation (RFC 7252, section 5.3.1; RFC 7641, section 3.6).
    ensures own_tokens { ClientHolds (λ _ sizes _ t. OwnTokens sizes t) }
    // A token is that of one request, or of an observation and its cancel.
    ensures tokens { ClientHolds (λ _ sizes _ t. OneOfToken sizes t) }
    // A token that is sent has at most 8 bytes.
    ensures short_tokens { ClientHolds (λ _ sizes _ t. ShortTokens sizes t) }
    // .. and so have the CONs that are begun.
    ensures one_con { ClientHolds OneConOrCancel }
    // A request of a call is answered once (RFC 7252, section 5.3.2).
    ensures heard_once { ClientHolds (λ _ sizes _ t. HeardOnce sizes t) }
    // A body is whole by the parts that its call took since it asked for the first block, under one ETag where there
    // are several; without Block2 it answers that request (RFC 7959, section 2.4).
    ensures bodies { ClientHolds (λ _ sizes _ t. BodiesAreWhole sizes t) }
    // Where a 2.05 makes a body whole, that is reported; and so is a value of an observation that is live, whose cancel
    // was not sent and of which no newer notification came (RFC 7641, section 3.2; RFC 7959, sections 2.4 and 2.6).
    ensures whole { ClientHolds (λ _ sizes _ t. WholeAreReported sizes t) }
    // What is heard its message layer handed up in that very call, as it came from the server (RFC 7252, section
    // 5.3.2).
    ensures heard { ClientHolds AreHandedUp }
    // Each later notification that is taken of an observation is newer than the one before (RFC 7641, section 3.4).
    ensures newer { ClientHolds (λ _ sizes _ t. AreNewer sizes t) }
    // Valid is reported of a GET that carries ETags, where a 2.03 was heard (RFC 7252, section 5.10.6.2).
    ensures valid { ClientHolds (λ _ sizes _ t. ValidOfTags sizes t) }
    // .. and wherever such a GET hears a 2.03, that is reported.
    ensures each_valid { ClientHolds (λ _ sizes _ t. EachIsValid sizes t) }
    // Behind its first block a body goes on where that was answered with 2.31 (RFC 7959, section 2.5).
    ensures continued { ClientHolds (λ _ sizes _ t. AreContinued sizes t) }
    // What is sent for a call is what that call asks for, as it was taken (RFC 7252, section 5.8).
    ensures of_calls { ClientHolds (λ _ sizes _ t. AreOfCalls sizes t) }
    // .. and what is sent for an observation asks for a representation.
    ensures others { ClientHolds (λ _ sizes _ t. OthersAreGets sizes t) }
    // A GET asks for at most all blocks of a body, anew at most MAX_RESTARTS times; an upload sends at most all blocks;
    // any other call asks once (RFC 7959, sections 2.4 and 2.5).
    ensures bounded { ClientHolds (λ _ sizes _ t. AreBounded sizes t) }
    // An observation is registered once, and cancelled once (RFC 7641, sections 2 and 3.6).
    ensures asks_once { ClientHolds (λ _ sizes _ t. AskOnce sizes t) }
    // A block of an upload is sent where each block of another upload was answered, or went out for the last time more
    // than MAX_LATENCY before (RFC 7252, section 4.8.2; RFC 7959, section 2.5; profile).
    ensures apart { ClientHolds BlocksApart }
    // Success and failure are reported of a call where its last request is answered so (RFC 7252, sections 5.8 and
    // 5.9).
    ensures codes { ClientHolds (λ _ sizes _ t. ReportsCodes sizes t) }
    // What is reported of a response is the first line that holds in the table of reports (RFC 7252, section 5.8; RFC
    // 7641, section 3.2; RFC 7959, section 2.4). Where none comes, only the end of an exchange, or a request that can't
    // be sent, is reported.
    ensures table { ClientHolds (λ _ sizes _ t. ReportsByTable sizes t) }
    // Each report is of a number that was given; Timeout, Reset and NoResponse are reported where the exchange of a
    // call, a registration or a cancel ends so, and NoIds where its request can't be sent (RFC 7252, sections 4.2, 4.4
    // and 5.2.2).
    ensures ends { ClientHolds (λ _ sizes _ t. AllEnds sizes t) }
    // A notification comes in a CON or a NON, the answer to a request in an acknowledgement too (RFC 7252, section 5.2;
    // RFC 7641, section 3.5).
    ensures types { ClientHolds (λ _ _ _ t. AreOfTypes t) }
    // A call, an observation and a cancel are refused exactly where they have to be, and what waits starts in its order
    // (the bounds are a profile).
    ensures taken { ClientHolds (λ _ sizes _ t. AllTaken sizes t) }
    // A representation that is to be fetched is, before all that waits; of several that of the lowest number first (RFC
    // 7252, section 4.7; RFC 7959, section 2.6).
    ensures fetches_first { ClientHolds (λ _ sizes _ t. AllFetchFirst sizes t) }
    // It is to be where a notification is taken that has the first of several blocks (RFC 7959, section 2.6).
    ensures wants { ClientHolds (λ _ sizes _ t. AllWant sizes t) }
    // Where no observation is taken, what runs is a call, and no report is of an observation (RFC 7641, section 3).
    ensures calls_alone { ClientHolds (λ _ sizes _ t. CallsAlone sizes t) }
{}

/// How the exchanges of a client go, and what their answers make.
pub fn client_exchanges_law()
    // An exchange is open exactly where one runs: it began at that moment, and has the token of the request that was
    // sent last (RFC 7252, section 5.3).
    ensures is_open { ClientHolds OpenRuns }
    // A Timeout ends it FAILURE_TIMEOUTS times ACK_TIMEOUT after that moment, or later; NoResponse EXCHANGE_LIFETIME
    // after it, or later (RFC 7252, sections 4.2 and 5.2.2).
    ensures ends_in_time { ClientHolds (λ _ sizes _ t. AllEndInTime sizes t) }
    // What is heard answers the exchange that is open, and a response from the server that does is heard (RFC 7252,
    // section 5.3.2).
    ensures hears_of_open { ClientHolds HearsOfOpen }
    // A response with the open exchange's token is heard if its critical options are recognised (section 5.3.2).
    ensures answers_heard { ClientHolds AnswersAreHeard }
    // To each response that comes in a CON it replies in the next entry of its message layer, by an Empty
    // acknowledgement or a Reset (RFC 7252, section 4.2).
    ensures replies_to_con { ClientHolds RepliesToCons }
    // A body, a 2.03, success, failure and what is no body are reported where an answer is heard that gives it, to the
    // request of that call that was sent last: success and failure with its code; a body, a 2.03 and what is no body of
    // a GET alone, but for a bad block of a body that is sent in blocks (RFC 7252, section 5.8; RFC 7959, section 2.5).
    ensures reports_of_a_call { ClientHolds (λ _ sizes _ t. AreByAnswers sizes t) }
    // A GET whose answers are replies of one representation, which is no longer than the client's limit, asks for the
    // first block or for one that begins below its length, and what they report is that representation (RFC 7252,
    // section 5.8.1; RFC 7959, section 2.4).
    ensures unchanged { ClientHolds (λ _ sizes _ t. AreUnchanged sizes t) }
    // Where fewer exchanges end in each EXCHANGE_LIFETIME than a quarter of the Message IDs, each request that is asked
    // for is sent: a Message ID and a token are free for it (RFC 7252, sections 4.4 and 5.3.1) ..
    ensures sent { ClientHolds (λ _ sizes _ t. SentWhereFewEnd sizes t) }
    // .. and so it is where each ends by its answer, and fewer answers are heard.
    ensures sent_where_answered { ClientHolds (λ _ sizes _ t. SentWhereAnswered sizes t) }
{
    asker_law();
}

/// What follows from the law of a client for the values of its observations.
pub fn client_values_law()
    // What it sends for an observation asks for the path that is observed (RFC 7641, sections 2 and 3.6).
    ensures of_observations { ClientHolds (λ _ sizes _ t. AreOfObservations sizes t) }
    // Of an observation it takes the answer to its registration, and then each newer notification, under the token of
    // that (RFC 7641, sections 3.2 to 3.4).
    ensures notified { ClientHolds (λ _ sizes _ t. AreTaken sizes t) }
    // What comes as a notification its message layer handed up in that very call, as it came from the server.
    ensures noted { ClientHolds AreNoted }
    // The mark of a notification that is taken has the moment at which its message layer handed it up (RFC 7641,
    // section 3.4).
    ensures noted_at { ClientHolds AreNotedAt }
    // A value is whole by the newest notification and what was fetched for that, by requests that were sent since then,
    // under one ETag where there are several parts (RFC 7959, section 2.6).
    ensures values { ClientHolds (λ _ sizes _ t. ValuesAreWhole sizes t) }
    // Of two values the notification of the later one came later (RFC 7641, section 3.4).
    ensures rising { ClientHolds (λ _ sizes _ t. ValuesRise sizes t) }
    // None is reported of an observation that is over, or that is being cancelled (RFC 7641, section 3.6).
    ensures ended { ClientHolds (λ server sizes setup t. AreOver sizes server setup t) }
{}

/// What a client sees of what it observes.
pub fn client_watches_law()
    // An observation that was taken, was not forgotten, and has no last report waits, runs or is live (RFC 7641,
    // section 3.1).
    ensures there { ClientHolds (λ server sizes setup t. AreThere sizes server setup t) }
    // .. and, where a notification of it was taken, it is live, under the token of that (RFC 7641, section 3.2).
    ensures watched { ClientHolds (λ server sizes setup t. AreWatched sizes server setup t) }
    // The registration of an observation is sent once (RFC 7641, section 3.1) ..
    ensures once { ClientHolds (λ _ sizes _ t. RegisteredOnce sizes t) }
    // .. and under its token the observation is live.
    ensures tokens { ClientHolds (λ _ sizes _ t. HaveTokens sizes t) }
    // A live observation stays so until it is forgotten, or a report of it is made that is no value (RFC 7641, section
    // 3.6).
    ensures stays { ClientHolds (λ _ sizes _ t. StayLive sizes t) }
    // The answer to a registration ends it, or is taken, and the observation is live (RFC 7641, section 3.1).
    ensures answered { ClientHolds (λ _ sizes _ t. RegistrationsAreAnswered sizes t) }
    // What is noted of a live observation ends it, is taken, or is not newer than the newest one before (RFC 7641,
    // sections 3.2 and 3.4).
    ensures noticed { ClientHolds (λ _ sizes _ t. AreNoticed sizes t) }
    // What is taken and has all of a representation is reported at once (RFC 7641, section 3.2).
    ensures shown { ClientHolds (λ _ sizes _ t. AreShownAtOnce sizes t) }
    // The exchanges keep the token of each live observation (RFC 7641, section 3.2).
    ensures kept { ClientHolds (λ server sizes setup t. TokensAreKept sizes server setup t) }
    // A response from the server with such a token is noted, where no cancel of that runs (RFC 7641, section 3.2).
    ensures notices_heard { ClientHolds NoticesAreHeard }
    // What is heard or noted is acknowledged if it is a CON, and never rejected (RFC 7252, section 4.2; RFC 7641,
    // section 3.5).
    ensures acked { ClientHolds AreAcked }
    // A cancel that runs was taken (RFC 7641, section 3.6).
    ensures cancels { ClientHolds (λ _ sizes _ t. CancelsAreTaken sizes t) }
    // Where each notification of an observation has all of a representation, its last value is what the newest of them
    // shows (RFC 7641, section 1.3).
    ensures last { ClientHolds (λ _ sizes _ t. LastIsNewest sizes t) }
    // Where each notification of an observation has all of a representation, nothing is fetched for it (RFC 7959,
    // section 2.6).
    ensures none_fetched { ClientHolds (λ _ sizes _ t. NoneFetched sizes t) }
{
    asker_law();
}

/// How a client goes on, and comes to rest.
pub fn client_rests_law()
    // A client can go on: each further call has answers that stand in the law.
    ensures goes { ClientHolds GoesOn }
    // Calls that stand in the law lead to this state of the client, and to no other.
    ensures left { ClientHolds (λ server sizes setup t. (s : State)
        → Led server sizes setup t s ↔ (s ≡ state_left server sizes setup t)) }
    // At one moment its ticks end: at most as many do something as that state has due.
    ensures ticks { (server : Endpoint) (sizes : Sizes) (setup : Setup) (t : List Call)
        → TicksEnd server sizes setup t }
    // .. and it comes to rest: so do what it has out and its reports.
    ensures rests { ClientHolds ComesToRest }
{}
