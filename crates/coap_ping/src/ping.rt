//! A ping, and when it goes out.
ghost use Rattle.std.specs.Prelude.{◌≡◌, ◌↔◌, ◌≤◌, ◌<◌, ◌+◌, ◌*◌, ◌-◌, ◌%◌, ◌^◌, ◌&&◌, ℕ, true, nat_le, nat_lt};
ghost use Rattle.std.specs.Prelude.{if◌then◌else◌};
ghost use Rattle.std.specs.List.{list_any};
ghost use Rattle.coap_types.specs.declared.endpoint.Endpoint.{Endpoint as EndpointSpec};
ghost use Rattle.coap_types.specs.declared.message.TheConstants.{MESSAGE_IDS as message_ids};
ghost use Rattle.coap_types.specs.declared.transmission.TheConstants.{ACK_TIMEOUT_MS as ack_timeout};
ghost use Rattle.coap_types.specs.declared.transmission.TheConstants.{EXCHANGE_LIFETIME_MS as exchange_lifetime};
ghost use Rattle.coap_types.specs.declared.transmission.TheConstants.{FAILURE_TIMEOUTS as failure_timeouts};
ghost use Rattle.coap_types.specs.declared.transmission.TheConstants.{MAX_RETRANSMIT as max_retransmit};
ghost use Rattle.coap_types.specs.declared.transmission.TheConstants.{TIMEOUT_VALUES as timeout_values};
ghost use Rattle.coap_layer.specs.BackOff.{factors};
ghost use Rattle.coap_layer.specs.Machine.State.{is_copy_due};
ghost use Rattle.coap_ping.specs.Pings.{IsAnswer, begun, is_over, ping_bytes, sent_at};

use coap_layer::reset;
use coap_types::transmission::{
    ACK_TIMEOUT_MS, LAST_RETRANSMISSION_MS, MAX_RETRANSMIT, MAX_TRANSMIT_WAIT_MS, TIMEOUT_VALUES,
};
use coap_types::{Code, Endpoint, Id, MESSAGE_IDS, Moment};
use std::marker::Model;

/// How long after one ping the next one begins at the earliest: no Message ID comes again then to an endpoint within
/// EXCHANGE_LIFETIME (RFC 7252, section 4.4).
pub const PING_PAUSE_MS: u64 = 4;

const _: () = prove!(PING_PAUSE_MS == 4);

// The first byte of an Empty Confirmable message: version 1, type 0, no token (RFC 7252, section 3).
const CON: u8 = 0x40;

/// An Empty Confirmable message that was sent, and of which the Reset is awaited (RFC 7252, section 4.3).
#[derive(Drop)]
pub struct Ping {
    to: Endpoint,
    id: Id,
    timeout: u16,
    first: Moment,
    last: Moment,
}

impl Model for Ping {
    ghost use Rattle.coap_layer.specs.Words.{Open};
    ghost use Rattle.coap_ping.specs.Pings.{ping_bytes};

    ghost Value = { Open };

    ghost view = { λ p. record {
      to = p.to;
      id = p.id.0;
      bytes = ping_bytes p.id.0;
      timeout = p.timeout;
      first = p.first.0;
      last = p.last.0;
    } };
}

// The Message ID that the word picks.
fn id_of(word: u64) -> Id
    ensures { result.0 ≡ word % message_ids }
{
    Id((word % u64::from(MESSAGE_IDS)) as u16)
}

// The initial timeout that the word picks, in milliseconds.
fn timeout_of(word: u64) -> u16
    ensures { result ≡ ack_timeout + word % timeout_values }
{
    (ACK_TIMEOUT_MS + word % TIMEOUT_VALUES) as u16
}

// After so many initial timeouts the copy of this number is due.
fn factor(copy: u32) -> u64
    requires { copy ≤ max_retransmit }
    ensures is { result ≡ 2 ^ copy - 1 }
    ensures short { result ≤ failure_timeouts }
{
    (1 << copy) - 1
}

// Whether the copy that is due so many timeouts after the first sending is due, and was not at the last sending.
fn falls_due(timeouts: u64, timeout: u16, sent: u64, elapsed: u64) -> bool
    requires { timeouts ≤ failure_timeouts }
    ensures { result ≡ (nat_lt sent (timeout * timeouts) && nat_le (timeout * timeouts) elapsed) }
{
    let due = u64::from(timeout) * timeouts;
    sent < due && due <= elapsed
}

// Whether one of the first so many copies is due, and was not at the last sending.
fn any_falls_due(copies: u32, timeout: u16, sent: u64, elapsed: u64) -> bool
    requires { copies ≤ max_retransmit }
    ensures { result ≡ list_any (λ k.
        nat_lt sent (timeout * k) && nat_le (timeout * k) elapsed) (factors copies) }
{
    if copies == 0 {
        return false;
    }
    any_falls_due(copies - 1, timeout, sent, elapsed)
        || falls_due(factor(copies), timeout, sent, elapsed)
}

impl Ping {
    /// A ping to this endpoint, which is sent first at this moment. The word picks its Message ID and its initial
    /// timeout.
    pub fn begin(now: Moment, to: Endpoint, word: u64) -> Ping
        // A ping begins with the Message ID and the initial timeout of the word (RFC 7252, section 4.2).
        ensures { result ≡ begun now.0 to word }
    {
        Ping {
            to,
            id: id_of(word),
            timeout: timeout_of(word),
            first: now,
            last: now,
        }
    }

    /// Where it goes to.
    pub fn to(&self) -> Endpoint
        // It goes to the endpoint that it began with.
        ensures { result ≡ self.now.to }
    {
        self.to
    }

    /// Its bytes.
    pub fn bytes(&self) -> [u8; 4]
        // The bytes are the Empty Confirmable message of its Message ID (RFC 7252, section 4.1).
        ensures { result ≡ ping_bytes self.now.id }
    {
        let [high, low] = self.id.0.to_be_bytes();
        [CON, Code::EMPTY.0, high, low]
    }

    /// Whether it is to be sent again at this moment, and then counts as sent.
    pub fn tick(&mut self, now: Moment) -> bool
        // A ping goes out again exactly when a Confirmable message does (RFC 7252, section 4.2).
        ensures due { result ≡ is_copy_due now.0 self.old }
        // That it went out again is kept, and nothing else changes.
        ensures sent { self.new ≡ if result then sent_at now.0 self.old else self.old }
    {
        let sent = self.last.since(self.first);
        let elapsed = now.since(self.first);
        if elapsed <= LAST_RETRANSMISSION_MS
            && any_falls_due(MAX_RETRANSMIT, self.timeout, sent, elapsed)
        {
            self.last = now;
            true
        } else {
            false
        }
    }

    /// Whether a datagram answers it that came from there.
    pub fn is_answered_by(&self, from: Endpoint, bytes: &[u8]) -> bool
        // A ping is answered exactly by the Reset of its Message ID, from the endpoint that it went to.
        ensures { (result ≡ true) ↔ IsAnswer self.now from bytes.now }
    {
        from == self.to && bytes == reset(self.id).as_slice()
    }

    /// How many milliseconds after its first sending this moment is.
    pub fn elapsed(&self, now: Moment) -> u64
        // The time is counted from the first sending.
        ensures { result ≡ now.0 - self.now.first }
    {
        now.since(self.first)
    }

    /// Whether no answer is awaited any more at this moment.
    pub fn is_over(&self, now: Moment) -> bool
        // A ping is over exactly 93 s after its first sending (MAX_TRANSMIT_WAIT, RFC 7252, section 4.8.2).
        ensures { result ≡ is_over now.0 self.now }
    {
        now.since(self.first) >= MAX_TRANSMIT_WAIT_MS
    }
}

/// What holds of all pings.
pub fn ping_law()
    // Pings of consecutive words that begin `PING_PAUSE_MS` apart have no Message ID in common within EXCHANGE_LIFETIME
    // (RFC 7252, section 4.4).
    ensures { (to : EndpointSpec) (word now later n : ℕ) → 0 < n → now + n * PING_PAUSE_MS ≤ later
        → (begun now to word).id ≡ (begun later to (word + n)).id → now + exchange_lifetime < later }
{}
