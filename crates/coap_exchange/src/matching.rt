//! Which response belongs to which request (RFC 7252, section 5.3.2).
ghost use Rattle.std.specs.Prelude.{◌≡◌};
ghost use Rattle.coap_exchange.specs.Matching.{judged, request_judged, in_row, row};
ghost use Rattle.coap_exchange.specs.AskerRequests.{opening};
ghost use Rattle.coap_exchange.specs.AskerArrivals.{reply_by, settles};

use coap_layer::{ack, reset};
use coap_types::{Id, Kind};

/// What becomes of a message that the message layer hands up to a client.
#[derive(Clone, Copy)]
pub enum Verdict {
    /// Nothing.
    Ignore,
    /// It is rejected with a Reset.
    Reject,
    /// It is acknowledged, and dropped.
    Acknowledge,
    /// A CON, which is acknowledged, is the response to the request of the exchange.
    AnswerCon,
    /// A NON or an ACK is the response to the request of the exchange.
    Answer,
    /// A CON, which is acknowledged, is a notification.
    NoticeCon,
    /// A NON is a notification.
    Notice,
    /// It acknowledges the request: a separate response is awaited.
    Await,
    /// It rejects the request.
    EndByReset,
}

/// What is known of a response that arrives.
#[derive(Clone, Copy)]
pub struct Known {
    /// It comes from the server.
    pub from_server: bool,
    /// It has the token of the exchange that runs.
    pub of_exchange: bool,
    /// It has the Message ID of the request of that exchange.
    pub same_id: bool,
    /// It has a token that is kept.
    pub kept: bool,
    /// It has a critical option that is not recognised (section 5.4.1).
    pub bad_option: bool,
    /// It carries Observe, and has the token of the exchange that runs, which is a cancel
    /// (RFC 7641, section 3.6).
    pub cancelled: bool,
}

/// What is to be done about a request.
#[derive(Clone, Copy)]
pub enum Opening {
    /// It is refused: an exchange runs.
    Running,
    /// It is refused: each token was given once.
    Spent,
    /// It is sent.
    Sends,
}

// A row of the table: what becomes of a CON, of a NON and of an ACK.
fn in_row(kind: Kind, con: Verdict, non: Verdict, ack: Verdict) -> Verdict
    ensures { (holds : _) → result ≡ in_row kind (row holds con non ack) }
{
    match kind {
        Kind::Con => con,
        Kind::Non => non,
        Kind::Ack => ack,
        Kind::Rst => Verdict::Ignore,
    }
}

/// What becomes of a response, by the table of `docs/PROTOCOL.md` (RFC 7252, section 5.3.2).
pub(crate) fn judge(kind: Kind, known: Known) -> Verdict
    ensures { result ≡ judged kind known }
{
    use Verdict::{Acknowledge, Answer, AnswerCon, Ignore, Notice, NoticeCon, Reject};
    let ack = kind == Kind::Ack;
    if !known.from_server || !(known.of_exchange || known.kept) {
        in_row(kind, Reject, Reject, Ignore)
    } else if ack && !(known.of_exchange && known.same_id) {
        in_row(kind, Ignore, Ignore, Ignore)
    } else if known.bad_option {
        in_row(kind, Reject, Ignore, Ignore)
    } else if !ack && known.cancelled {
        in_row(kind, Acknowledge, Ignore, Ignore)
    } else if known.of_exchange {
        in_row(kind, AnswerCon, Answer, Answer)
    } else if known.kept {
        in_row(kind, NoticeCon, Notice, Ignore)
    } else {
        Ignore
    }
}

/// What becomes of a request: a client serves none (RFC 7252, section 4.3).
pub(crate) fn judge_request(kind: Kind) -> Verdict
    ensures { result ≡ request_judged kind }
{
    match kind {
        Kind::Con => Verdict::Reject,
        Kind::Non | Kind::Ack | Kind::Rst => Verdict::Ignore,
    }
}

/// The Empty message that answers the arrival of this Message ID, if one does (RFC 7252, section
/// 4.2).
pub(crate) fn reply_by(verdict: Verdict, id: Id) -> Option<[u8; 4]>
    ensures { result ≡ reply_by verdict id.0 }
{
    match verdict {
        Verdict::Reject => Some(reset(id)),
        Verdict::Acknowledge | Verdict::AnswerCon | Verdict::NoticeCon => Some(ack(id)),
        Verdict::Ignore
        | Verdict::Answer
        | Verdict::Notice
        | Verdict::Await
        | Verdict::EndByReset => None,
    }
}

/// Whether the response implies the acknowledgement of the request (RFC 7252, section 5.2.2).
pub(crate) fn settles(verdict: Verdict) -> bool
    ensures { result ≡ settles verdict }
{
    matches!(verdict, Verdict::AnswerCon | Verdict::Answer)
}

/// What is to be done about a request: one exchange runs at a time (NSTART is 1: RFC 7252, section
/// 4.7), and no token is given twice (section 5.3.1); a cancel has its own.
pub(crate) fn judge_ask(running: bool, spent: bool, cancel: bool) -> Opening
    ensures { result ≡ opening running spent cancel }
{
    match (running, spent, cancel) {
        (true, _, _) => Opening::Running,
        (false, true, false) => Opening::Spent,
        (false, true, true) | (false, false, _) => Opening::Sends,
    }
}
