//! What is said where nothing is heard of an observation for long.
ghost use Rattle.std.specs.Prelude.{ℕ, List, Option, ◌≡◌};
ghost use Rattle.coap_codec.specs.Message.{Message, Spells};
ghost use Rattle.coap_types.specs.declared.endpoint.Endpoint.{Endpoint as EndpointSpec};
ghost use Rattle.coap_links.specs.Carried.{Packet};
ghost use Rattle.coap_print.specs.Spelled.{Spelled};
ghost use Rattle.coap_waits.specs.Freshness.{max_age};

use crate::progress::number_of;
use coap_codec::{View, decode};
use coap_links::Link;
use coap_types::{Endpoint, Moment};
use coap_wires::{Timekeeper, passed};
use std::io;
use std::io::Write;

// The number of the option that says for how many seconds a response is fresh (RFC 7252, section 5.10.5).
pub(crate) const MAX_AGE: u16 = 14;

/// For how many seconds a representation may be taken for fresh that doesn't say (RFC 7252, section 5.10.5).
pub const DEFAULT_MAX_AGE: u64 = 60;

const _: () = prove!(MAX_AGE == 14 && DEFAULT_MAX_AGE == 60);

/// Says on a writer that nothing is heard of an observation, once for each time that what came last is no longer fresh.
#[derive(Drop)]
pub struct Silence<T, W> {
    time: T,
    out: W,
    // For how many seconds what came last is fresh, and since when; None: nothing was sent yet, or it was said.
    fresh: Option<(Moment, u64)>,
}

// For how many seconds a message is fresh.
fn max_age_in(message: &View<'_>) -> u64
    ensures { result ≡ max_age message.now.options }
{
    match number_of(message, MAX_AGE) {
        Some(seconds) => seconds,
        None => DEFAULT_MAX_AGE,
    }
}

// .. a datagram, which may spell none.
fn max_age_of(bytes: &[u8]) -> u64
    ensures said { (m : Message) → Spells bytes.now m → result ≡ max_age m.options }
    ensures none { (Spelled bytes.now → ⊥) → result ≡ DEFAULT_MAX_AGE }
{
    match decode(bytes) {
        Ok(message) => max_age_in(&message),
        Err(_) => DEFAULT_MAX_AGE,
    }
}

impl<T: Timekeeper, W: Write> Silence<T, W> {
    /// Says it by this clock on this writer.
    pub fn new(time: T, out: W) -> Silence<T, W> {
        Silence {
            time,
            out,
            fresh: None,
        }
    }

    // Something is heard, or begins to be awaited, and is fresh for so many seconds.
    fn hear(&mut self, seconds: u64) {
        if let Ok(now) = self.time.now() {
            self.fresh = Some((now, seconds));
        }
    }

    // Something is sent: from the first time on something is awaited.
    fn begin(&mut self) {
        if self.fresh.is_none() {
            self.hear(DEFAULT_MAX_AGE);
        }
    }

    // Nothing came: says so, where what came last is no longer fresh.
    fn look(&mut self) {
        let Some((since, seconds)) = self.fresh else {
            return;
        };
        let Ok(now) = self.time.now() else {
            return;
        };
        if let Some(seconds) = passed(Some(seconds), since, now) {
            let _ = writeln!(self.out, "nothing was heard in {seconds} s");
            self.fresh = None;
        }
    }
}

/// A link over which it is said that nothing is heard. What passes, the faults and the address are those of the link
/// that it is around.
#[derive(Drop)]
pub struct SilentLink<L, T, W> {
    link: L,
    silence: Option<Silence<T, W>>,
}

impl<L: Link + Drop, T: Timekeeper + Drop, W: Write + Drop> SilentLink<L, T, W> {
    /// A link around this one; where nobody is to say it, it says nothing.
    pub fn new(link: L, silence: Option<Silence<T, W>>) -> SilentLink<L, T, W>
        // A `new` link that says that nothing is heard is around its link as that is.
        ensures { result ≡ record { link = link; silence = silence } }
    {
        SilentLink { link, silence }
    }
}

impl<L: Link + Drop, T: Timekeeper + Drop, W: Write + Drop> Link for SilentLink<L, T, W> {
    ghost sends = { λ before to bytes after. L.sends before.link to bytes after.link };

    ghost receives = { λ before came after. L.receives before.link came after.link };

    ghost fault_count = { λ silent. L.fault_count silent.link };

    ghost broken_count = { λ silent. L.broken_count silent.link };

    ghost told_loss = { λ silent. L.told_loss silent.link };

    ghost own_address = { λ silent. L.own_address silent.link };

    ghost hears_refusal = { λ silent. L.hears_refusal silent.link };

    fn send(&mut self, to: Endpoint, bytes: &[u8]) {
        if let Some(silence) = &mut self.silence {
            silence.begin();
        }
        self.link.send(to, bytes);
    }

    fn receive(&mut self, buf: &mut [u8]) -> Option<(Endpoint, usize)> {
        let came = self.link.receive(buf);
        if let Some(silence) = &mut self.silence {
            match came {
                Some((_, len)) => silence.hear(max_age_of(buf.get(..len).unwrap_or(&[]))),
                None => silence.look(),
            }
        }
        came
    }

    fn faults(&self) -> u64 {
        self.link.faults()
    }

    fn broken_receives(&self) -> u64 {
        self.link.broken_receives()
    }

    fn loss(&self) -> Option<io::Error> {
        self.link.loss()
    }

    fn address(&self) -> Endpoint {
        self.link.address()
    }

    fn is_refused(&self) -> bool {
        self.link.is_refused()
    }
}

/// What passes a link that says that nothing is heard passes the link that it is around, unchanged; all else is that
/// link's.
pub fn silent_link_law<L: Link + Drop, T: Timekeeper + Drop, W: Write + Drop>()
    // What is sent over a silent link its link sends, the same bytes to the same endpoint.
    ensures sends { (t u : _) (to : EndpointSpec) (bytes : List ℕ)
        → ⟦<SilentLink<L, T, W> as Link>⟧.sends t to bytes u → L.sends t.link to bytes u.link }
    // What comes over a silent link its link received, and nothing where nothing came.
    ensures receives { (t u : _) (came : Option Packet)
        → ⟦<SilentLink<L, T, W> as Link>⟧.receives t came u → L.receives t.link came u.link }
    // The faults of a silent link are those of its link, and no others.
    ensures faults { (t : _) → ⟦<SilentLink<L, T, W> as Link>⟧.fault_count t ≡ L.fault_count t.link }
    // A link that says that nothing is heard is as broken as its link.
    ensures broken { (t : _) → ⟦<SilentLink<L, T, W> as Link>⟧.broken_count t ≡ L.broken_count t.link }
    // A link that says that nothing is heard is told of the losses of its link.
    ensures losses { (t : _) → ⟦<SilentLink<L, T, W> as Link>⟧.told_loss t ≡ L.told_loss t.link }
    // A silent link is where its link is.
    ensures address { (t : _) → ⟦<SilentLink<L, T, W> as Link>⟧.own_address t ≡ L.own_address t.link }
    // A silent link hears that nobody listens where its link does.
    ensures refusal { (t : _) → ⟦<SilentLink<L, T, W> as Link>⟧.hears_refusal t ≡ L.hears_refusal t.link }
{}
