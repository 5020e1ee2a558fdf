//! A link around a link, which tells of each datagram as it goes and as it comes.
ghost use Rattle.std.specs.Prelude.{ℕ, Bool, List, Option, ◌≡◌, is_ok};
ghost use Rattle.coap_types.specs.declared.endpoint.Endpoint.{Endpoint as EndpointSpec};
ghost use Rattle.coap_links.specs.Carried.{Packet};
ghost use Rattle.coap_links.specs.Tracing.{IsTold, IsToldWhere};
ghost use Rattle.coap_links.specs.declared.trace.Way.{Way as WaySpec};
ghost use Rattle.coap_links.specs.declared.trace.Way.TheVariants.{Comes, Goes};

use crate::link::{Link, raise};
use coap_types::Endpoint;
use std::io;

/// Which way a datagram passes a link.
#[derive(Clone, Copy, Debug, PartialEq, Eq)]
pub enum Way {
    /// It is sent.
    Goes,
    /// It was received.
    Comes,
}

/// What is told of the datagrams that pass a link, as on a writer.
pub trait Teller {
    /// The teller before, which way a datagram passes, its peer and its bytes, whether it was told of, and the
    /// teller after.
    ghost tells: { Self → WaySpec → EndpointSpec → List ℕ → Bool → Self → Type 0 };

    /// Tells of a datagram that goes to this peer or comes from it. An `Err` says that it did not, or not to the end.
    fn tell(&mut self, way: Way, peer: Endpoint, bytes: &[u8]) -> io::Result<()>
        // A teller tells of that datagram, as its own words have it, and says whether it did.
        ensures { tells self.old way peer bytes.now (is_ok result) self.new };
}

/// Where there is a teller, it tells; where there is none, nothing is told of, which is no failure.
impl<T: Teller + Drop> Teller for Option<T> {
    ghost use Rattle.coap_links.specs.Tracing.{TellsWhere};

    ghost tells = { TellsWhere T.tells };

    fn tell(&mut self, way: Way, peer: Endpoint, bytes: &[u8]) -> io::Result<()> {
        match self {
            Some(teller) => teller.tell(way, peer, bytes),
            None => Ok(()),
        }
    }
}

/// A link that tells of each datagram that passes it. What passes, the faults and the address are those of the link
/// that it is around; where nothing can be told, as for want of memory, the datagram passes as well.
#[derive(Drop)]
pub struct Trace<L, T> {
    link: L,
    teller: T,
    untold: u64,
}

impl<L: Link + Drop, T: Teller + Drop> Trace<L, T> {
    /// Has a teller tell of what passes a link.
    pub fn new(link: L, teller: T) -> Trace<L, T>
        // A `new` trace is around its link as that is, with its teller, and has missed nothing to tell of.
        ensures { result ≡ record { link = link; teller = teller; untold = 0 } }
    {
        Trace {
            link,
            teller,
            untold: 0,
        }
    }

    /// How many datagrams it could not tell of, up to the last value of a `u64`.
    pub fn untold(&self) -> u64
        // The number is that of the datagrams that it could not tell of.
        ensures { result ≡ self.now.untold }
    {
        self.untold
    }

    /// The link that it is around, and its teller.
    pub fn into_parts(self) -> (L, T)
        // A trace gives back its link as it is, and its teller.
        ensures { result ≡ (self.link, self.teller) }
    {
        (self.link, self.teller)
    }

    // Tells of a datagram, once, and counts one that can't be told of.
    fn tell(&mut self, way: Way, peer: Endpoint, bytes: &[u8])
        ensures link { self.new.link ≡ self.old.link }
        ensures told { IsTold T.tells self.old.teller self.old.untold way (peer, bytes.now) self.new.teller
            self.new.untold }
    {
        if self.teller.tell(way, peer, bytes).is_err() {
            self.untold = raise(self.untold);
        }
    }
}

impl<L: Link + Drop, T: Teller + Drop> Link for Trace<L, T> {
    ghost sends = { λ before to bytes after. L.sends before.link to bytes after.link
        × IsTold T.tells before.teller before.untold Goes (to, bytes) after.teller after.untold };

    ghost receives = { λ before came after. L.receives before.link came after.link
        × IsToldWhere T.tells before.teller before.untold came after.teller after.untold };

    ghost fault_count = { λ trace. L.fault_count trace.link };

    ghost broken_count = { λ trace. L.broken_count trace.link };

    ghost told_loss = { λ trace. L.told_loss trace.link };

    ghost own_address = { λ trace. L.own_address trace.link };

    ghost hears_refusal = { λ trace. L.hears_refusal trace.link };

    fn send(&mut self, to: Endpoint, bytes: &[u8]) {
        self.tell(Way::Goes, to, bytes);
        self.link.send(to, bytes);
    }

    fn receive(&mut self, buf: &mut [u8]) -> Option<(Endpoint, usize)> {
        let came = self.link.receive(buf);
        if let Some((from, len)) = came {
            self.tell(Way::Comes, from, &buf[..len]);
        }
        came
    }

    fn faults(&self) -> u64 {
        self.link.faults()
    }

    fn broken_receives(&self) -> u64 {
        self.link.broken_receives()
    }

    fn loss(&self) -> Option<io::Error> {
        self.link.loss()
    }

    fn address(&self) -> Endpoint {
        self.link.address()
    }

    fn is_refused(&self) -> bool {
        self.link.is_refused()
    }
}

/// What passes a trace passes the link that it is around, unchanged, and is told of once; the faults and the address
/// are those of that link.
pub fn trace_law<L: Link + Drop, T: Teller + Drop>()
    // What a trace sends its link sends, the same bytes to the same endpoint.
    ensures sends { (t u : _) (to : EndpointSpec) (bytes : List ℕ)
        → ⟦<Trace<L, T> as Link>⟧.sends t to bytes u → L.sends t.link to bytes u.link }
    // What a trace receives its link received, and where nothing came to the one, nothing came to the other.
    ensures receives { (t u : _) (came : Option Packet)
        → ⟦<Trace<L, T> as Link>⟧.receives t came u → L.receives t.link came u.link }
    // A trace tells of what it sends, just that, once, and counts it where that could not be told.
    ensures tells_sent { (t u : _) (to : EndpointSpec) (bytes : List ℕ) → ⟦<Trace<L, T> as Link>⟧.sends t to bytes u
        → IsTold T.tells t.teller t.untold Goes (to, bytes) u.teller u.untold }
    // A trace tells of what it received likewise, and of nothing where nothing came.
    ensures tells_received { (t u : _) (came : Option Packet) → ⟦<Trace<L, T> as Link>⟧.receives t came u
        → IsToldWhere T.tells t.teller t.untold came u.teller u.untold }
    // The faults of a trace are those of its link, and no others.
    ensures faults { (t : _) → ⟦<Trace<L, T> as Link>⟧.fault_count t ≡ L.fault_count t.link }
    // The receives in a row that failed for what a trace itself is are those of its link.
    ensures broken { (t : _) → ⟦<Trace<L, T> as Link>⟧.broken_count t ≡ L.broken_count t.link }
    // A trace is told of the losses of which its link is.
    ensures losses { (t : _) → ⟦<Trace<L, T> as Link>⟧.told_loss t ≡ L.told_loss t.link }
    // A trace is where its link is.
    ensures address { (t : _) → ⟦<Trace<L, T> as Link>⟧.own_address t ≡ L.own_address t.link }
    // A trace hears that nobody listens where its link does.
    ensures refusal { (t : _) → ⟦<Trace<L, T> as Link>⟧.hears_refusal t ≡ L.hears_refusal t.link }
{}
