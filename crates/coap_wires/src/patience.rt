//! What is said where nothing comes for long.
ghost use Rattle.std.specs.Prelude.{ℕ, List, Option, ◌≡◌, is_some};
ghost use Rattle.coap_types.specs.declared.endpoint.Endpoint.{Endpoint as EndpointSpec};
ghost use Rattle.coap_links.specs.Carried.{Packet};
ghost use Rattle.coap_wires.specs.Waiting.{latest_end, tells_of_wait};

use crate::timekeeper::Timekeeper;
use crate::waiting::{MS_PER_SECOND, passed};
use coap_links::Link;
use coap_types::transmission::MAX_TRANSMIT_WAIT_MS;
use coap_types::{Endpoint, Moment};
use std::io;
use std::io::Write;

/// After how many seconds without a datagram it is said that nothing came.
pub const LONG_WAIT: u64 = 3;

/// From the first sending of a message until no acknowledgement is awaited any more, in seconds (RFC 7252, section
/// 4.8.2).
pub const MAX_TRANSMIT_WAIT: u64 = MAX_TRANSMIT_WAIT_MS / MS_PER_SECOND;

const _: () = prove!(LONG_WAIT == 3 && MAX_TRANSMIT_WAIT == 93);

/// After how many seconds a request is given up at the latest, where nothing comes: then its client reports that, or
/// the program gives up before, after as many seconds as were chosen.
pub fn latest_end(give_up: Option<u64>) -> u64
    // Where nothing comes, that is 93 s, or as many as were chosen, where these are fewer (RFC 7252, section 4.8.2).
    ensures { result ≡ latest_end give_up }
{
    match give_up {
        Some(seconds) if seconds < MAX_TRANSMIT_WAIT => seconds,
        _ => MAX_TRANSMIT_WAIT,
    }
}

// How long nothing has come.
#[derive(Clone, Copy)]
enum Wait {
    // Nothing was sent.
    NotBegun,
    // Since the first sending, at this moment.
    Since(Moment),
    // Something came, or it was said that nothing did.
    Over,
}

/// Says on a writer, once, that nothing has come for `LONG_WAIT` seconds, and when that is given up at the latest.
#[derive(Drop)]
pub struct Patience<T, W> {
    time: T,
    out: W,
    latest: u64,
    wait: Wait,
}

/// Who says it by this clock on this writer, where that is wanted, and where what is asked is not given up before.
pub fn patience_on<T: Timekeeper + Drop, W: Write + Drop>(
    time: T,
    out: W,
    give_up: Option<u64>,
    is_wanted: bool,
) -> Option<Patience<T, W>>
    // A long wait is told of exactly where that is wanted, unless it is given up within its 3 s.
    ensures { is_some result ≡ tells_of_wait is_wanted give_up }
{
    let latest = latest_end(give_up);
    if is_wanted && LONG_WAIT < latest {
        Some(Patience {
            time,
            out,
            latest,
            wait: Wait::NotBegun,
        })
    } else {
        None
    }
}

impl<T: Timekeeper, W: Write> Patience<T, W> {
    // Something is sent: the wait begins with the first.
    fn begin(&mut self) {
        if let Wait::NotBegun = self.wait {
            if let Ok(now) = self.time.now() {
                self.wait = Wait::Since(now);
            }
        }
    }

    // A datagram came, or none did.
    fn look(&mut self, came: bool) {
        match self.wait {
            Wait::Since(_) if came => self.wait = Wait::Over,
            Wait::Since(begin) => self.tell(begin),
            Wait::NotBegun | Wait::Over => {}
        }
    }

    // Says that nothing has come since this moment, where that is long ago.
    fn tell(&mut self, begin: Moment) {
        let Ok(now) = self.time.now() else {
            return;
        };
        if let Some(seconds) = passed(Some(LONG_WAIT), begin, now) {
            let latest = self.latest;
            let _ = writeln!(
                self.out,
                "nothing has come in {seconds} s; given up {latest} s after the request at the latest"
            );
            self.wait = Wait::Over;
        }
    }
}

/// A link over which it is said where nothing comes for long. What passes, the faults and the address are those of the
/// link that it is around.
#[derive(Drop)]
pub struct PatientLink<L, T, W> {
    link: L,
    patience: Option<Patience<T, W>>,
}

impl<L: Link + Drop, T: Timekeeper + Drop, W: Write + Drop> PatientLink<L, T, W> {
    /// A link around this one; where nobody is to say it, it says nothing.
    pub fn new(link: L, patience: Option<Patience<T, W>>) -> PatientLink<L, T, W>
        // A patient link is around its link as that is.
        ensures { result ≡ record { link = link; patience = patience } }
    {
        PatientLink { link, patience }
    }
}

impl<L: Link + Drop, T: Timekeeper + Drop, W: Write + Drop> Link for PatientLink<L, T, W> {
    ghost sends = { λ before to bytes after. L.sends before.link to bytes after.link };

    ghost receives = { λ before came after. L.receives before.link came after.link };

    ghost fault_count = { λ patient. L.fault_count patient.link };

    ghost broken_count = { λ patient. L.broken_count patient.link };

    ghost told_loss = { λ patient. L.told_loss patient.link };

    ghost own_address = { λ patient. L.own_address patient.link };

    ghost hears_refusal = { λ patient. L.hears_refusal patient.link };

    fn send(&mut self, to: Endpoint, bytes: &[u8]) {
        if let Some(patience) = &mut self.patience {
            patience.begin();
        }
        self.link.send(to, bytes);
    }

    fn receive(&mut self, buf: &mut [u8]) -> Option<(Endpoint, usize)> {
        let came = self.link.receive(buf);
        if let Some(patience) = &mut self.patience {
            patience.look(came.is_some());
        }
        came
    }

    fn faults(&self) -> u64 {
        self.link.faults()
    }

    fn broken_receives(&self) -> u64 {
        self.link.broken_receives()
    }

    fn loss(&self) -> Option<io::Error> {
        self.link.loss()
    }

    fn address(&self) -> Endpoint {
        self.link.address()
    }

    fn is_refused(&self) -> bool {
        self.link.is_refused()
    }
}

/// What passes a patient link passes the link that it is around, unchanged; the faults and the address are those of
/// that link.
pub fn patient_link_law<L: Link + Drop, T: Timekeeper + Drop, W: Write + Drop>()
    // What a patient link sends its link sends, the same bytes to the same endpoint.
    ensures sends { (t u : _) (to : EndpointSpec) (bytes : List ℕ)
        → ⟦<PatientLink<L, T, W> as Link>⟧.sends t to bytes u → L.sends t.link to bytes u.link }
    // What a patient link receives its link received, and nothing where nothing came.
    ensures receives { (t u : _) (came : Option Packet)
        → ⟦<PatientLink<L, T, W> as Link>⟧.receives t came u → L.receives t.link came u.link }
    // The faults of a patient link are those of its link, and no others.
    ensures faults { (t : _) → ⟦<PatientLink<L, T, W> as Link>⟧.fault_count t ≡ L.fault_count t.link }
    // A patient link is as broken as its link.
    ensures broken { (t : _) → ⟦<PatientLink<L, T, W> as Link>⟧.broken_count t ≡ L.broken_count t.link }
    // A patient link is told of the losses of its link.
    ensures losses { (t : _) → ⟦<PatientLink<L, T, W> as Link>⟧.told_loss t ≡ L.told_loss t.link }
    // A patient link is where its link is.
    ensures address { (t : _) → ⟦<PatientLink<L, T, W> as Link>⟧.own_address t ≡ L.own_address t.link }
    // A patient link hears that nobody listens where its link does.
    ensures refusal { (t : _) → ⟦<PatientLink<L, T, W> as Link>⟧.hears_refusal t ≡ L.hears_refusal t.link }
{}
