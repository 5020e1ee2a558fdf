//! What carries datagrams.
ghost use Rattle.std.specs.Prelude.{ℕ, Bool, List, Option, ◌≡◌, ◌≤◌, IfSome, length};
ghost use Rattle.std.specs.declared.io.Error.{Error as ErrorSpec};
ghost use Rattle.coap_types.specs.declared.endpoint.Endpoint.{Endpoint as EndpointSpec};
ghost use Rattle.coap_links.specs.Faults.{MayRaise, RaisesOrEnds, raised};
ghost use Rattle.coap_links.specs.Carried.{Packet, received};

use coap_types::Endpoint;
use std::io;

/// The longest datagram that is received; a longer one is dropped (profile: an end sends at most
/// 1,152 bytes, RFC 7252, section 4.6).
pub const MAX_DATAGRAM_LEN: usize = 2_048;

const _: () = prove!(MAX_DATAGRAM_LEN == 2_048);

/// A way to send datagrams and to receive them. A call that fails loses its datagram, and is
/// counted.
pub trait Link {
    /// The link before a send, where the datagram goes to, its bytes, and the link after.
    ghost sends: { Self → EndpointSpec → List ℕ → Self → Type 0 };

    /// The link before a receive, what came and where from, and the link after.
    ghost receives: { Self → Option Packet → Self → Type 0 };

    /// How many calls failed.
    ghost fault_count: { Self → ℕ };

    /// How many receives in a row failed for what the link itself is, and not for what became of a datagram.
    ghost broken_count: { Self → ℕ };

    /// Why a datagram is lost, as the system said in the last call; None, where it said that of none.
    ghost told_loss: { Self → Option ErrorSpec };

    /// Where it receives.
    ghost own_address: { Self → EndpointSpec };

    /// Whether it was told that nobody listens where its datagrams go.
    ghost hears_refusal: { Self → Bool };

    /// Sends a datagram.
    fn send(&mut self, to: Endpoint, bytes: &[u8])
        // A link sends just these bytes to that endpoint, as its own words have it.
        ensures sends { sends self.old to bytes.now self.new }
        // By a send the failures of a link rise by one at most.
        ensures counted { MayRaise (fault_count self.old) (fault_count self.new) }
        // A datagram that is lost says nothing of the link itself.
        ensures broken { broken_count self.new ≡ broken_count self.old };

    /// Puts a datagram that came into the front of the buffer, and answers where it came from and
    /// its length; None where none came. One of over `MAX_DATAGRAM_LEN` bytes is dropped.
    fn receive(&mut self, buf: &mut [u8]) -> Option<(Endpoint, usize)>
        requires room { MAX_DATAGRAM_LEN ≤ length buf.old }
        // A link receives what is answered, or nothing, as its own words have it.
        ensures receives { receives self.old (received result buf.new) self.new }
        // What is received has at most 2,048 bytes.
        ensures fits { IfSome result (λ came. came.1 ≤ MAX_DATAGRAM_LEN) }
        // The room that a link is lent stays as long as it was.
        ensures room { length buf.new ≡ length buf.old }
        // By a receive the failures of a link rise by one at most.
        ensures counted { MayRaise (fault_count self.old) (fault_count self.new) }
        // A receive that fails for what the link itself is counts one more in a row, and each other one ends the row.
        ensures broken { RaisesOrEnds (broken_count self.old) (broken_count self.new) }
        // A link from which a datagram comes is not broken.
        ensures whole { IfSome result (λ _. broken_count self.new ≡ 0) };

    /// How many calls failed, up to the last value of a `u64`.
    fn faults(&self) -> u64
        // The number is that of the calls that failed.
        ensures { result ≡ fault_count self.now };

    /// How many receives in a row failed for what the link itself is, up to the last value of a `u64`.
    fn broken_receives(&self) -> u64
        // The number is that of the receives in a row that failed for what the link itself is.
        ensures { result ≡ broken_count self.now };

    /// Why a datagram is lost, as the system said in the last send or receive: of that datagram, or of an earlier one
    /// (RFC 1122, section 4.1.3.3).
    fn loss(&self) -> Option<io::Error>
        // The loss is the one that was told in the last call, and none where none was.
        ensures { result ≡ told_loss self.now };

    /// Where it receives.
    fn address(&self) -> Endpoint
        // The address is that where the link receives.
        ensures { result ≡ own_address self.now };

    /// Whether it was told that nobody listens where its datagrams go (RFC 1122, section 4.1.3.3), and nothing came
    /// since.
    fn is_refused(&self) -> bool
        // A link says that nobody listens exactly where it was told so.
        ensures { result ≡ hears_refusal self.now };
}

/// One more fault, up to the last value.
pub(crate) fn raise(count: u64) -> u64
    ensures { result ≡ raised count }
{
    count.saturating_add(1)
}
