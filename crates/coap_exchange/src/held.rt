//! What a client's side keeps beside its message layer.
ghost use Rattle.std.specs.Prelude.{◌≡◌, ◌<◌, ◌+◌, ◌-◌, ◌^◌, None, Some, [], false, if◌then◌else◌};
ghost use Rattle.coap_types.specs.FirstMoment.{IsFirstMoment};
ghost use Rattle.coap_exchange.specs.AskerArrivals.{has_token, has_id, is_cancel, running_after, acked_in, has_waited};

use crate::asker::{Exchange, Turn};
use crate::kept_tokens::KeptTokens;
use crate::matching::Verdict;
use coap_types::transmission::EXCHANGE_LIFETIME_MS;
use coap_types::{Id, Moment, Token, after};

/// What a client's side keeps beside its layer.
#[derive(Drop)]
pub struct Held {
    /// How many tokens were given.
    pub given: u64,
    /// The exchange that runs.
    pub running: Option<Exchange>,
    /// The tokens that are kept.
    pub kept: KeptTokens,
}

impl Held {
    /// Nothing yet.
    pub(crate) fn new() -> Held
        ensures given { result.given ≡ 0 }
        ensures running { result.running ≡ None }
        ensures kept { result.kept ≡ [] }
    {
        Held {
            given: 0,
            running: None,
            kept: KeptTokens::new(),
        }
    }

    /// An exchange begins, with this token and this Message ID; a cancel takes no fresh token.
    pub(crate) fn open(&mut self, token: Token, id: Id, cancel: bool)
        requires { cancel ≡ false → self.old.given < 2 ^ 64 - 1 }
        ensures given { self.new.given ≡ (if cancel then self.old.given else self.old.given + 1) }
        ensures running { self.new.running ≡ Some (record { token = token; id = id; acked = None; cancel = cancel }) }
        ensures kept { self.new.kept ≡ self.old.kept }
    {
        if !cancel {
            self.given += 1;
        }
        self.running = Some(Exchange {
            token,
            id,
            acked: None,
            cancel,
        });
    }

    /// Becomes the same as the other.
    pub(crate) fn copy_from(&mut self, other: &Held)
        ensures { self.new ≡ other.now }
    {
        self.given = other.given;
        self.running = copied(&other.running);
        self.kept.copy_from(&other.kept);
    }
}

// The same exchange again.
fn copied(running: &Option<Exchange>) -> Option<Exchange>
    ensures { result ≡ running.now }
{
    let exchange = running.as_ref()?;
    Some(Exchange {
        token: exchange.token.copy(),
        id: exchange.id,
        acked: exchange.acked,
        cancel: exchange.cancel,
    })
}

/// Whether the token is that of the exchange that runs.
pub(crate) fn has_token(running: &Option<Exchange>, token: &[u8]) -> bool
    ensures { result ≡ has_token running.now token.now }
{
    match running {
        Some(exchange) => token == exchange.token.as_slice(),
        None => false,
    }
}

/// Whether the Message ID is that of its request.
pub(crate) fn has_id(running: &Option<Exchange>, id: Id) -> bool
    ensures { result ≡ has_id running.now id.0 }
{
    match running {
        Some(exchange) => id.0 == exchange.id.0,
        None => false,
    }
}

/// Whether it cancels an observation.
pub(crate) fn is_cancel(running: &Option<Exchange>) -> bool
    ensures { result ≡ is_cancel running.now }
{
    match running {
        Some(exchange) => exchange.cancel,
        None => false,
    }
}

/// What an arrival leaves of it.
pub(crate) fn after_arrival(
    at: Moment,
    verdict: Verdict,
    running: Option<Exchange>,
) -> Option<Exchange>
    ensures { result ≡ running_after at.0 verdict running }
{
    match verdict {
        Verdict::AnswerCon | Verdict::Answer | Verdict::EndByReset => None,
        Verdict::Await => {
            let exchange = running?;
            Some(Exchange {
                acked: Some(at),
                ..exchange
            })
        }
        Verdict::Ignore
        | Verdict::Reject
        | Verdict::Acknowledge
        | Verdict::NoticeCon
        | Verdict::Notice => running,
    }
}

/// Whether the wait for its separate response is over (RFC 7252, section 5.2.2).
pub(crate) fn has_waited(at: Moment, running: &Option<Exchange>) -> bool
    ensures { result ≡ has_waited at.0 (acked_in running.now) }
{
    match running {
        Some(
            Exchange {
                acked: Some(acked),
                ..
            },
        ) => at.0.saturating_sub(acked.0) >= EXCHANGE_LIFETIME_MS,
        _ => false,
    }
}

/// The first moment, from this one on, at which the wait for its separate response is over (RFC 7252, section 5.2.2).
pub(crate) fn waited_from(running: &Option<Exchange>, from: Moment) -> Option<Moment>
    ensures first { IsFirstMoment (λ now. has_waited now (acked_in running.now)) from.0 result }
    ensures range { from.0 < 2 ^ 64 }
{
    match running {
        Some(
            Exchange {
                acked: Some(acked),
                ..
            },
        ) => after(*acked, EXCHANGE_LIFETIME_MS, from),
        _ => None,
    }
}
