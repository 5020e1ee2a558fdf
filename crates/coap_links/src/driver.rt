//! One turn of an end over a link.
ghost use Rattle.std.specs.Prelude.{ℕ, List, [], ◌≡◌, ◌-◌, IfOk, length};
ghost use Rattle.coap_layer.specs.Trace.{Packet};
ghost use Rattle.coap_links.specs.Faults.{RaisesOrEnds};
ghost use Rattle.coap_links.specs.Pumping.{Pumps, SendsAll};

use crate::link::{Link, MAX_DATAGRAM_LEN};
use coap_ends::End;
use coap_types::Moment;
use std::alloc::{AllocError, Allocator};

/// What one turn did.
#[derive(Clone, Copy, Debug, PartialEq, Eq)]
pub struct Pumped {
    /// How many datagrams were handed to the link.
    pub sent: u64,
    /// How many calls of the link failed.
    pub lost: u64,
    /// Whether a datagram was fed.
    pub fed: bool,
}

/// Hands all that is out to the link, in order, and answers how many datagrams these were.
pub fn send_all<A: Allocator + Copy, E: End<A>, L: Link>(end: &mut E, link: &mut L) -> u64
    // All that was out is sent over the link, once, in order.
    ensures chain { SendsAll E.gives L.sends
        (E.state end.old) link.old (E.waiting (E.state end.old)) (E.state end.new) link.new }
    // Then nothing is out any more.
    ensures empty { E.waiting (E.state end.new) ≡ [] }
    // The number is that of the datagrams that were out.
    ensures count { result ≡ length (E.waiting (E.state end.old)) }
    // However many are lost, that says nothing of the link itself.
    ensures broken { L.broken_count link.new ≡ L.broken_count link.old }
{
    let mut sent = 0;
    while let Some(datagram) = end.next_out() {
        link.send(datagram.to(), datagram.bytes());
        sent += 1;
    }
    sent
}

/// Sends all that is out, receives at most one datagram, and feeds it, with this moment and this
/// word. After an `Err` that datagram is lost, and what was out has been sent.
pub fn pump<A: Allocator + Copy, E: End<A>, L: Link>(
    end: &mut E,
    link: &mut L,
    now: Moment,
    word: u64,
) -> Result<Pumped, AllocError>
    // All that was out is sent, at most one datagram is received, and just that is fed, or lost for want of memory; and
    // the numbers are those of what was out, of its sends that failed, and of the calls that failed.
    ensures chain { Pumps E.waiting E.gives L.sends L.receives L.fault_count E.quiet_feed E.feeds
        (E.state end.old) link.old now.0 word result (E.state end.new) link.new }
    // The number of what was sent is that of the datagrams that were out.
    ensures sent { IfOk result (λ pumped. pumped.sent ≡ length (E.waiting (E.state end.old))) }
    // The number of what was lost is by how much the link's failures rose.
    ensures lost { IfOk result (λ pumped. pumped.lost ≡ L.fault_count link.new - L.fault_count link.old) }
    // A pump counts one receive at most that failed for what the link itself is, however many datagrams are lost.
    ensures broken { RaisesOrEnds (L.broken_count link.old) (L.broken_count link.new) }
{
    let faults_before = link.faults();
    let sent = send_all(end, link);
    let mut buf = [0; MAX_DATAGRAM_LEN];
    let fed = match link.receive(&mut buf) {
        Some((from, len)) => {
            end.feed(now, from, &buf[..len], word)?;
            true
        }
        None => false,
    };
    let lost = link.faults().saturating_sub(faults_before);
    Ok(Pumped { sent, lost, fed })
}
