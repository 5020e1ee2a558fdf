//! What is said where nobody listens.
ghost use Rattle.std.specs.Prelude.{ℕ, List, Option, ◌≡◌};
ghost use Rattle.coap_types.specs.declared.endpoint.Endpoint.{Endpoint as EndpointSpec};
ghost use Rattle.coap_links.specs.Carried.{Packet};

use crate::patience::latest_end;
use crate::peers::PeerWords;
use coap_links::Link;
use coap_types::Endpoint;
use std::io;
use std::io::Write;

/// Says on a writer, once, that nobody listens where a client's datagrams go, and until when it tries on.
#[derive(Drop)]
pub struct ClosedPort<W> {
    out: W,
    server: PeerWords,
    latest: u64,
    is_told: bool,
}

impl<W: Write> ClosedPort<W> {
    /// Who says it of this server, where a request is given up after so many seconds at the latest.
    pub fn new(out: W, server: PeerWords, give_up: Option<u64>) -> ClosedPort<W> {
        ClosedPort {
            out,
            server,
            latest: latest_end(give_up),
            is_told: false,
        }
    }

    // Says it, where that is so and was not said yet.
    fn look(&mut self, is_refused: bool) {
        if is_refused && !self.is_told {
            self.is_told = true;
            let server = self.server;
            let latest = self.latest;
            let _ = writeln!(
                self.out,
                "nobody listens at {server}; trying on until {latest} s after the request at the latest"
            );
        }
    }
}

/// A link over which it is said where nobody listens. What passes, the faults and the address are those of the link
/// that it is around.
#[derive(Drop)]
pub struct ClosedPortLink<L, W> {
    link: L,
    closed_port: ClosedPort<W>,
}

impl<L: Link + Drop, W: Write + Drop> ClosedPortLink<L, W> {
    /// A link around this one.
    pub fn new(link: L, closed_port: ClosedPort<W>) -> ClosedPortLink<L, W>
        // A `new` link that says where nobody listens is around its link as that is.
        ensures { result ≡ record { link = link; closed_port = closed_port } }
    {
        ClosedPortLink { link, closed_port }
    }
}

impl<L: Link + Drop, W: Write + Drop> Link for ClosedPortLink<L, W> {
    ghost sends = { λ before to bytes after. L.sends before.link to bytes after.link };

    ghost receives = { λ before came after. L.receives before.link came after.link };

    ghost fault_count = { λ closed. L.fault_count closed.link };

    ghost broken_count = { λ closed. L.broken_count closed.link };

    ghost told_loss = { λ closed. L.told_loss closed.link };

    ghost own_address = { λ closed. L.own_address closed.link };

    ghost hears_refusal = { λ closed. L.hears_refusal closed.link };

    fn send(&mut self, to: Endpoint, bytes: &[u8]) {
        self.link.send(to, bytes);
        self.closed_port.look(self.link.is_refused());
    }

    fn receive(&mut self, buf: &mut [u8]) -> Option<(Endpoint, usize)> {
        let came = self.link.receive(buf);
        self.closed_port.look(self.link.is_refused());
        came
    }

    fn faults(&self) -> u64 {
        self.link.faults()
    }

    fn broken_receives(&self) -> u64 {
        self.link.broken_receives()
    }

    fn loss(&self) -> Option<io::Error> {
        self.link.loss()
    }

    fn address(&self) -> Endpoint {
        self.link.address()
    }

    fn is_refused(&self) -> bool {
        self.link.is_refused()
    }
}

/// What passes a link that says where nobody listens passes the link that it is around, unchanged; all else is that
/// link's.
pub fn closed_port_link_law<L: Link + Drop, W: Write + Drop>()
    // What it sends its link sends, the same bytes to the same endpoint.
    ensures sends { (t u : _) (to : EndpointSpec) (bytes : List ℕ)
        → ⟦<ClosedPortLink<L, W> as Link>⟧.sends t to bytes u → L.sends t.link to bytes u.link }
    // What it receives its link received, and nothing where nothing came.
    ensures receives { (t u : _) (came : Option Packet)
        → ⟦<ClosedPortLink<L, W> as Link>⟧.receives t came u → L.receives t.link came u.link }
    // Its faults are those of its link, and no others.
    ensures faults { (t : _) → ⟦<ClosedPortLink<L, W> as Link>⟧.fault_count t ≡ L.fault_count t.link }
    // It is as broken as its link.
    ensures broken { (t : _) → ⟦<ClosedPortLink<L, W> as Link>⟧.broken_count t ≡ L.broken_count t.link }
    // It is told of the losses of its link.
    ensures losses { (t : _) → ⟦<ClosedPortLink<L, W> as Link>⟧.told_loss t ≡ L.told_loss t.link }
    // It is where its link is.
    ensures address { (t : _) → ⟦<ClosedPortLink<L, W> as Link>⟧.own_address t ≡ L.own_address t.link }
    // It hears that nobody listens where its link does.
    ensures refusal { (t : _) → ⟦<ClosedPortLink<L, W> as Link>⟧.hears_refusal t ≡ L.hears_refusal t.link }
{}
