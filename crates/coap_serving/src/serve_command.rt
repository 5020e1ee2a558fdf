//! `serve`: a server over a socket.
ghost use Rattle.std.specs.Prelude.{◌≡◌, ◌↔◌, IfOk, IsTrue, OnOk, map};
ghost use Rattle.std.specs.Io.KnownBytes.{Appends};
ghost use Rattle.coap_resource.specs.Entries.{content_of};
ghost use Rattle.coap_server.specs.Led.{State};
ghost use Rattle.coap_server.specs.Object.Shown.{state_of};
ghost use Rattle.coap_scripts.specs.Settings.{setting_of};
ghost use Rattle.coap_wires.specs.Words.{IsDrawnOrigin};
ghost use Rattle.coap_wires.specs.Hosts.{IsBoundFor, IsLoopback, IsOfAddress};
ghost use Rattle.coap_wires.specs.declared.hosts.Peer.TheVariants as peers;
ghost use Rattle.coap_serving.specs.Kept.{IsServedAsSaid, IsServedOn};
ghost use Rattle.coap_serving.specs.Served.{FedFrom, IsServedFrom, IsServedIn, not_set_up_status};
ghost use Rattle.coap_serving.specs.Printed.{not_set_up_text, served_text};
ghost use Rattle.coap_status.specs.declared.status.Status.TheVariants.{Done};

use crate::changes::{ChangeTeller, TellingEnd, changes_on};
use crate::keeping::{keep_four, refuse_six};
use crate::serve_script::{Texts, script_of, tell_bad_line};
use crate::serving::serve_over;
use crate::setting_up::{NotSetUp, server_after};
use coap_answers::tell_refusal;
use coap_arguments::{Address, Journal, ServeOptions};
use coap_common::put_away;
use coap_ends::Server;
use coap_links::{Link, Trace, Udp6Link, UdpLink};
use coap_resource::MapStore;
use coap_scripts::Setting;
use coap_status::{Status, Stop};
use coap_types::Endpoint;
use coap_wires::{
    Draws, FourPeers, FourStanding, LossLink, Losses, Origin, Peer, Peers, ProgramTime,
    SharedWriter, Showing, SixPeers, SixStanding, Standing, Timekeeper, Tracing, begin_of,
    capture_in, capture_on, names_for, origin_of, own_six, peer_at, teller_on,
};
use std::alloc::Global;
use std::cell::RefCell;
use std::fs::File;
use std::hash::{BuildHasher, RandomState};
use std::io::Write;
use std::net::{Net, SocketAddrV6};
use std::random::RandomSource;
use std::rt::{Clock, Files};

// How many peers over IPv6 have names at once: those from which a datagram came in the last 247 s. What comes from
// another one, where there is no place, is dropped.
const MAX_CLIENTS: u32 = 65_536;

const _: () = prove!(MAX_CLIENTS == 65_536);

// Whether only the machine itself reaches an address (RFC 1122, section 3.2.1.3; RFC 4291, section 2.5.3).
fn is_loopback(address: Address) -> bool
    ensures { IsTrue result ↔ IsLoopback address }
{
    match address {
        Address::Four(ip) => ip.is_loopback(),
        Address::Six { ip, .. } => ip.is_loopback(),
    }
}

// Says what a server that others reach lets them do.
pub(crate) fn warn<E: Write>(options: &ServeOptions, port: u16, err: &mut E) {
    if !is_loopback(options.address) {
        let _ = writeln!(
            err,
            "whoever reaches port {port} may write, make and delete every path"
        );
    }
}

// Serves with this server, whose changes are told of where somebody tells, and puts it away.
fn serve_with<
    H: BuildHasher + Drop,
    C: ChangeTeller<Global> + Drop,
    L: Link,
    T: Timekeeper,
    W: Write,
>(
    server: Server<MapStore, Global, H>,
    changes: Option<C>,
    link: &mut L,
    time: &mut T,
    count: u64,
    word: u64,
    out: &mut W,
) -> Result<Status, Stop>
    ensures serves { IfOk result (λ status. (status ≡ Done)
        × (last : State) × FedFrom count (state_of content_of server) last) }
    ensures printed { OnOk result (Appends (W.contents out.old) (W.contents out.new) (served_text count)) }
{
    let mut server = TellingEnd::new(server, changes);
    let ended = serve_over(&mut server, link, time, count, word, out);
    put_away(server);
    ended
}

// Serves over a link, as the words and the settings of a script say, until so many datagrams came. What passes is
// captured in a file, where there is one.
fn serve_on<
    R: AllocGlobal + Clock + RandomSource,
    L: Link + Drop,
    P: Standing + Drop,
    F: Write + Drop,
    N: Peers + Drop,
    O: Write,
    E: Write,
>(
    rt: &R,
    link: L,
    capture: (P, Option<F>),
    telling: (N, Tracing),
    port: u16,
    count: u64,
    origin: Origin,
    options: &ServeOptions,
    settings: &[Setting],
    out: &mut O,
    err: &mut E,
) -> Result<Status, Stop>
    requires bound { IsBoundFor options.now.address port (L.own_address link) }
    ensures { IfOk result (IsServedFrom (λ o. o ≡ origin) (O.contents out.old) (O.contents out.new) count options.now
        (map setting_of settings.now)) }
{
    warn(options, port, err);
    let mut time = ProgramTime::begin(rt)?;
    let (standing, file) = capture;
    let begin = begin_of(rt, time.now()?)?;
    let capture = capture_on(standing, rt.alloc(), time.again(), begin, file);
    let err = RefCell::new(&mut *err);
    let link = LossLink::new(link, Losses::new(SharedWriter::new(&err)));
    let link = Trace::new(link, capture);
    let (peers, tracing) = telling;
    let teller = teller_on(rt.alloc(), time.again(), &err, peers, tracing);
    let mut link = Trace::new(link, teller);
    let changes = changes_on(rt.alloc(), &err, options.changes, options.json);
    let made = server_after(rt.alloc(), origin, options, settings, RandomState::new(rt)?)?;
    match made {
        Ok(server) => {
            let word = origin.word;
            serve_with(server, changes, &mut link, &mut time, count, word, out)
        }
        Err(why) => tell_not_set_up(why, out),
    }
}

// Says why a server isn't set up.
fn tell_not_set_up<W: Write>(why: NotSetUp, out: &mut W) -> Result<Status, Stop>
    ensures status { IfOk result (λ status. status ≡ not_set_up_status why) }
    ensures printed { OnOk result (Appends (W.contents out.old) (W.contents out.new) (not_set_up_text why)) }
{
    match why {
        NotSetUp::Refused(refusal) => tell_refusal(refusal, out),
        NotSetUp::Line(bad) => tell_bad_line(bad, out),
    }
}

// Serves at an endpoint of IPv4, as the words and the settings of a script say.
fn serve_four<R: AllocGlobal + Files + Net + Clock + RandomSource + Draws, O: Write, E: Write>(
    rt: &R,
    address: Endpoint,
    port: u16,
    count: u64,
    options: &ServeOptions,
    settings: &[Setting],
    showing: Showing<'_>,
    out: &mut O,
    err: &mut E,
) -> Result<Status, Stop>
    requires said { IsOfAddress options.now.address port (peers.Four address) }
    ensures { IfOk result (IsServedFrom (IsDrawnOrigin (R.draws rt.now) options.now.word) (O.contents out.old)
        (O.contents out.new) count options.now (map setting_of settings.now)) }
{
    let origin = origin_of(rt, options.word)?;
    let link = UdpLink::bind(rt, address)?;
    let file = capture_in(rt, showing.pcap)?;
    let standing = FourStanding {
        own: link.address(),
    };
    let tracing = Tracing::of(options.trace, showing.is_coloured);
    serve_on(
        rt,
        link,
        (standing, file),
        (FourPeers, tracing),
        port,
        count,
        origin,
        options,
        settings,
        out,
        err,
    )
}

// .. at an address of IPv6.
fn serve_six<R: AllocGlobal + Files + Net + Clock + RandomSource + Draws, O: Write, E: Write>(
    rt: &R,
    address: SocketAddrV6,
    port: u16,
    count: u64,
    options: &ServeOptions,
    settings: &[Setting],
    showing: Showing<'_>,
    out: &mut O,
    err: &mut E,
) -> Result<Status, Stop>
    requires said { IsOfAddress options.now.address port (peers.Six address) }
    ensures { IfOk result (IsServedFrom (IsDrawnOrigin (R.draws rt.now) options.now.word) (O.contents out.old)
        (O.contents out.new) count options.now (map setting_of settings.now)) }
{
    let origin = origin_of(rt, options.word)?;
    let names = names_for(rt, MAX_CLIENTS)?;
    let link = Udp6Link::bind(rt, address, &names, ProgramTime::begin(rt)?)?;
    let file = capture_in(rt, showing.pcap)?;
    let standing = SixStanding::new(own_six(&names, link.address()), &names);
    let tracing = Tracing::of(options.trace, showing.is_coloured);
    serve_on(
        rt,
        link,
        (standing, file),
        (SixPeers::new(&names), tracing),
        port,
        count,
        origin,
        options,
        settings,
        out,
        err,
    )
}

// Serves at a port, as the words and the settings of a script say.
fn serve_settings<
    R: AllocGlobal + Files<File = File> + Net + Clock + RandomSource + Draws,
    O: Write,
    E: Write,
>(
    rt: &R,
    port: u16,
    count: u64,
    options: &ServeOptions,
    settings: &[Setting],
    showing: Showing<'_>,
    out: &mut O,
    err: &mut E,
) -> Result<Status, Stop>
    ensures { IfOk result (IsServedFrom (IsDrawnOrigin (R.draws rt.now) options.now.word) (O.contents out.old)
        (O.contents out.new) count options.now (map setting_of settings.now)) }
{
    match peer_at(options.address, port) {
        Peer::Four(address) => {
            serve_four(
                rt, address, port, count, options, settings, showing, out, err,
            )
        }
        Peer::Six(address) => {
            serve_six(
                rt, address, port, count, options, settings, showing, out, err,
            )
        }
    }
}

// Serves at a port and goes on from a journal, as the words say.
fn serve_on_journal<
    R: AllocGlobal + Files<File = File> + Net + Clock + RandomSource,
    O: Write,
    E: Write,
>(
    rt: &R,
    port: u16,
    count: u64,
    options: &ServeOptions,
    journal: Journal<'_>,
    showing: Showing<'_>,
    out: &mut O,
    err: &mut E,
) -> Result<Status, Stop>
    ensures { IfOk result (IsServedOn (O.contents out.old) (O.contents out.new) count options.now journal.entry) }
{
    match peer_at(options.address, port) {
        Peer::Four(address) => {
            let serving = (port, count);
            keep_four(rt, address, serving, options, journal, showing, out, err)
        }
        Peer::Six(_) => refuse_six(err),
    }
}

// Serves at a port, as the words and the script in a file say.
fn serve_script<
    R: AllocGlobal + Files<File = File> + Net + Clock + RandomSource + Draws + Texts,
    O: Write,
    E: Write,
>(
    rt: &R,
    port: u16,
    count: u64,
    options: &ServeOptions,
    script: Option<&str>,
    showing: Showing<'_>,
    out: &mut O,
    err: &mut E,
) -> Result<Status, Stop>
    ensures { IfOk result (IsServedIn (IsDrawnOrigin (R.draws rt.now) options.now.word) (O.contents out.old)
        (O.contents out.new) (R.has rt.now) count options.now script.entry) }
{
    match script_of(rt, script)? {
        Ok(settings) => serve_settings(
            rt,
            port,
            count,
            options,
            settings.as_slice(),
            showing,
            out,
            err,
        ),
        Err(bad) => tell_bad_line(bad, out),
    }
}

/// Serves at a port, as the words and the script in a file say, until so many datagrams came; with a journal, as the
/// words say, and goes on from it. With a wrong line in the script nothing is served.
pub fn serve<R: AllocGlobal + Files<File = File> + Net + Clock + RandomSource, O: Write, E: Write>(
    rt: &R,
    port: u16,
    count: u64,
    options: &ServeOptions,
    script: Option<&str>,
    journal: Option<Journal<'_>>,
    showing: Showing<'_>,
    out: &mut O,
    err: &mut E,
) -> Result<Status, Stop>
    // A server is set up as the words and its script say, or goes on from its journal, and is turned until it was fed
    // so many datagrams; what it says of that is written, and its status is 0; or it is told why it isn't set up.
    ensures { IfOk result (IsServedAsSaid (O.contents out.old) (O.contents out.new) count options.now script.entry
        journal.entry) }
{
    match journal {
        Some(journal) => serve_on_journal(rt, port, count, options, journal, showing, out, err),
        None => serve_script(rt, port, count, options, script, showing, out, err),
    }
}
