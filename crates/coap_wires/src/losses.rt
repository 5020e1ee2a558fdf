//! What is said where sends fail.
ghost use Rattle.std.specs.Prelude.{ℕ, List, Option, ◌≡◌};
ghost use Rattle.coap_types.specs.declared.endpoint.Endpoint.{Endpoint as EndpointSpec};
ghost use Rattle.coap_links.specs.Carried.{Packet};
ghost use Rattle.coap_wires.specs.Losses.{after_receive, after_send};

use coap_links::Link;
use coap_types::Endpoint;
use std::io;
use std::io::Write;

/// Whether datagrams go.
#[derive(Clone, Copy, Debug, PartialEq, Eq)]
pub enum Going {
    /// As far as is known.
    Well,
    /// The last send failed.
    Unsent,
    /// The system told that one was lost that it had sent, and nothing came since.
    Lost,
}

// Whether datagrams go after a send.
fn after_send(going: Going, is_lost: bool) -> Going
    ensures { result ≡ after_send going is_lost }
{
    match (going, is_lost) {
        (_, true) => Going::Unsent,
        (Going::Unsent, false) => Going::Well,
        (going, false) => going,
    }
}

// Whether datagrams go after a receive.
fn after_receive(going: Going, is_lost: bool, came: bool) -> Going
    ensures { result ≡ after_receive going is_lost came }
{
    match (going, is_lost, came) {
        (Going::Well, true, _) => Going::Lost,
        (Going::Lost, false, true) => Going::Well,
        (going, _, _) => going,
    }
}

/// Says on a writer that sends fail, once, and why; and again, once they go.
#[derive(Drop)]
pub struct Losses<W> {
    out: W,
    going: Going,
}

impl<W: Write> Losses<W> {
    /// Who says it on this writer.
    pub fn new(out: W) -> Losses<W>
        // Nothing is lost yet.
        ensures { result.going ≡ Going.Well }
    {
        Losses {
            out,
            going: Going::Well,
        }
    }

    // Datagrams go so from now on. Says it, where that is news.
    fn note(&mut self, going: Going, loss: Option<io::Error>)
        ensures { self.new.going ≡ going }
    {
        let was_well = self.going == Going::Well;
        self.going = going;
        let _ = match loss {
            Some(why) if was_well => writeln!(self.out, "sends fail: {why}"),
            None if !was_well && going == Going::Well => writeln!(self.out, "sends go again"),
            _ => Ok(()),
        };
    }
}

/// A link over which it is said where sends fail. What passes, the faults and the address are those of the link that it
/// is around.
#[derive(Drop)]
pub struct LossLink<L, W> {
    link: L,
    losses: Losses<W>,
}

impl<L: Link + Drop, W: Write + Drop> LossLink<L, W> {
    /// A link around this one.
    pub fn new(link: L, losses: Losses<W>) -> LossLink<L, W>
        // A `new` link that says where sends fail is around its link as that is.
        ensures { result ≡ record { link = link; losses = losses } }
    {
        LossLink { link, losses }
    }
}

impl<L: Link + Drop, W: Write + Drop> Link for LossLink<L, W> {
    ghost use Rattle.std.specs.Prelude.{is_some};
    ghost use Rattle.coap_wires.specs.Losses.{after_receive, after_send};

    ghost sends = { λ before to bytes after. L.sends before.link to bytes after.link
        × (after.losses.going ≡ after_send before.losses.going (is_some (L.told_loss after.link))) };

    ghost receives = { λ before came after. L.receives before.link came after.link
        × (after.losses.going ≡ after_receive before.losses.going (is_some (L.told_loss after.link)) (is_some came)) };

    ghost fault_count = { λ link. L.fault_count link.link };

    ghost broken_count = { λ link. L.broken_count link.link };

    ghost told_loss = { λ link. L.told_loss link.link };

    ghost own_address = { λ link. L.own_address link.link };

    ghost hears_refusal = { λ link. L.hears_refusal link.link };

    fn send(&mut self, to: Endpoint, bytes: &[u8]) {
        self.link.send(to, bytes);
        let loss = self.link.loss();
        let going = after_send(self.losses.going, loss.is_some());
        self.losses.note(going, loss);
    }

    fn receive(&mut self, buf: &mut [u8]) -> Option<(Endpoint, usize)> {
        let came = self.link.receive(buf);
        let loss = self.link.loss();
        let going = after_receive(self.losses.going, loss.is_some(), came.is_some());
        self.losses.note(going, loss);
        came
    }

    fn faults(&self) -> u64 {
        self.link.faults()
    }

    fn broken_receives(&self) -> u64 {
        self.link.broken_receives()
    }

    fn loss(&self) -> Option<io::Error> {
        self.link.loss()
    }

    fn address(&self) -> Endpoint {
        self.link.address()
    }

    fn is_refused(&self) -> bool {
        self.link.is_refused()
    }
}

/// What passes a link that says where sends fail passes the link that it is around, unchanged; all else is that link's.
pub fn loss_link_law<L: Link + Drop, W: Write + Drop>()
    // What a link sends that says where sends fail, its link sends, the same bytes to the same endpoint.
    ensures sends { (t u : _) (to : EndpointSpec) (bytes : List ℕ)
        → ⟦<LossLink<L, W> as Link>⟧.sends t to bytes u → L.sends t.link to bytes u.link }
    // What such a link receives its link received, and nothing where nothing came.
    ensures receives { (t u : _) (came : Option Packet)
        → ⟦<LossLink<L, W> as Link>⟧.receives t came u → L.receives t.link came u.link }
    // The faults of such a link are those of its link, and no others.
    ensures faults { (t : _) → ⟦<LossLink<L, W> as Link>⟧.fault_count t ≡ L.fault_count t.link }
    // Such a link is as broken as its link.
    ensures broken { (t : _) → ⟦<LossLink<L, W> as Link>⟧.broken_count t ≡ L.broken_count t.link }
    // Such a link is told of the losses of its link.
    ensures losses { (t : _) → ⟦<LossLink<L, W> as Link>⟧.told_loss t ≡ L.told_loss t.link }
    // Such a link is where its link is.
    ensures address { (t : _) → ⟦<LossLink<L, W> as Link>⟧.own_address t ≡ L.own_address t.link }
    // Such a link hears that nobody listens where its link does.
    ensures refusal { (t : _) → ⟦<LossLink<L, W> as Link>⟧.hears_refusal t ≡ L.hears_refusal t.link }
{}
