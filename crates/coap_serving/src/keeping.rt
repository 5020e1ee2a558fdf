//! `serve --journal`: a server that goes on from a file.
ghost use Rattle.std.specs.Prelude.{IfOk};
ghost use Rattle.coap_wires.specs.Hosts.{IsBoundFor, IsOfAddress};
ghost use Rattle.coap_serving.specs.Kept.{IsServedOn};
ghost use Rattle.coap_wires.specs.declared.hosts.Peer.TheVariants as peers;

use crate::changes::{ChangeTeller, changes_on};
use crate::journal_words::{drawn_of, keeping_of, says_of, setup_of};
use crate::kept_turns::go_on_kept;
use coap_arguments::{Journal, ServeOptions, WordChoice};
use coap_kept::{KeepError, keep};
use coap_links::{Link, Trace, UdpLink};
use coap_status::{Status, Stop};
use coap_types::Endpoint;
use coap_wires::{
    FourPeers, FourStanding, LossLink, Losses, ProgramTime, SharedWriter, Showing, Standing,
    Timekeeper, Tracing, begin_of, capture_in, capture_on, teller_on, word_of,
};
use std::alloc::Global;
use std::cell::RefCell;
use std::fs::File;
use std::hash::RandomState;
use std::io::Write;
use std::net::Net;
use std::random::RandomSource;
use std::rt::{Clock, Files};

// Says why a server doesn't go on from a journal.
fn tell_why<E: Write>(name: &str, why: KeepError, err: &mut E) -> Result<Status, Stop>
    ensures { IfOk result (λ _. ⊥) }
{
    match why {
        KeepError::Memory => Err(Stop::Memory),
        _ => {
            let _ = writeln!(err, "{name}: {why}");
            Err(Stop::Failed)
        }
    }
}

// Serves over a link and goes on from a journal, as the words say, until so many datagrams came.
fn keep_over<R, L, C, O, E>(
    rt: &R,
    link: &mut L,
    changes: Option<C>,
    serving: (u16, u64),
    options: &ServeOptions,
    journal: Journal<'_>,
    out: &mut O,
    err: &RefCell<E>,
) -> Result<Status, Stop>
where
    R: AllocGlobal + Files<File = File> + Clock + RandomSource,
    L: Link,
    C: ChangeTeller<Global> + Drop,
    O: Write,
    E: Write,
    ensures { IfOk result (IsServedOn (O.contents out.old) (O.contents out.new) serving.1 options.now
        journal.entry) }
{
    let alloc = rt.alloc();
    let mut time = ProgramTime::begin(rt)?;
    let syncs = time.again();
    let setup = setup_of(alloc, options)?;
    let says = says_of(journal);
    let drawn = drawn_of(rt, options, says)?;
    let name = journal.file;
    let keeping = keeping_of(options, says, drawn, name, setup.as_slice());
    let word = word_of(rt, WordChoice::Random)?;
    let hashers = (RandomState::new(rt)?, RandomState::new(rt)?);
    let told = SharedWriter::new(err);
    let mut said = SharedWriter::new(err);
    match keep(rt, &keeping, link, &mut time, syncs, told, hashers) {
        Ok(kept) => go_on_kept(
            alloc, kept, serving, options, changes, link, time, word, name, out, &mut said,
        ),
        Err(why) => tell_why(name, why, &mut said),
    }
}

// The same over links of which it is told what passes.
fn keep_on<R, L, P, F, O, E>(
    rt: &R,
    link: L,
    capture: (P, Option<F>),
    tracing: Tracing,
    serving: (u16, u64),
    options: &ServeOptions,
    journal: Journal<'_>,
    out: &mut O,
    err: &mut E,
) -> Result<Status, Stop>
where
    R: AllocGlobal + Files<File = File> + Clock + RandomSource,
    L: Link + Drop,
    P: Standing + Drop,
    F: Write + Drop,
    O: Write,
    E: Write,
    requires bound { IsBoundFor options.now.address serving.0 (L.own_address link) }
    ensures { IfOk result (IsServedOn (O.contents out.old) (O.contents out.new) serving.1 options.now
        journal.entry) }
{
    let mut time = ProgramTime::begin(rt)?;
    let (standing, file) = capture;
    let began = begin_of(rt, time.now()?)?;
    let capture = capture_on(standing, rt.alloc(), time.again(), began, file);
    let err = RefCell::new(&mut *err);
    let link = LossLink::new(link, Losses::new(SharedWriter::new(&err)));
    let link = Trace::new(link, capture);
    let teller = teller_on(rt.alloc(), time.again(), &err, FourPeers, tracing);
    let mut link = Trace::new(link, teller);
    let changes = changes_on(rt.alloc(), &err, options.changes, options.json);
    keep_over(rt, &mut link, changes, serving, options, journal, out, &err)
}

/// Serves at an endpoint of IPv4 and goes on from a journal, as the words say.
pub(crate) fn keep_four<R, O, E>(
    rt: &R,
    address: Endpoint,
    serving: (u16, u64),
    options: &ServeOptions,
    journal: Journal<'_>,
    showing: Showing<'_>,
    out: &mut O,
    err: &mut E,
) -> Result<Status, Stop>
where
    R: AllocGlobal + Files<File = File> + Net + Clock + RandomSource,
    O: Write,
    E: Write,
    requires said { IsOfAddress options.now.address serving.0 (peers.Four address) }
    ensures { IfOk result (IsServedOn (O.contents out.old) (O.contents out.new) serving.1 options.now
        journal.entry) }
{
    let link = UdpLink::bind(rt, address)?;
    let file = capture_in(rt, showing.pcap)?;
    let standing = FourStanding {
        own: link.address(),
    };
    let tracing = Tracing::of(options.trace, showing.is_coloured);
    keep_on(
        rt,
        link,
        (standing, file),
        tracing,
        serving,
        options,
        journal,
        out,
        err,
    )
}

/// Says that no server at an address of IPv6 goes on from a journal: the names of its peers are in none.
pub(crate) fn refuse_six<E: Write>(err: &mut E) -> Result<Status, Stop>
    ensures { IfOk result (λ _. ⊥) }
{
    let _ = writeln!(err, "--journal goes with an address of IPv4 alone");
    Err(Stop::Failed)
}
