//! `ping`: over a socket.
ghost use Rattle.std.specs.Prelude.{IfOk};
ghost use Rattle.coap_wires.specs.Words.{IsRandom};
ghost use Rattle.coap_asking.specs.PingLines.{IsPinged};
ghost use Rattle.coap_asking.specs.Pinged.{PingsBy};

use crate::pinging::{Pinging, ping_over};
use coap_arguments::{PingOptions, Server};
use coap_common::put_away;
use coap_links::Link;
use coap_status::{Status, Stop};
use coap_wires::{
    Draws, Ends, FourSource, LinkSource, MAX_PEERS, Peer, ProgramTime, Screen, Showing, SixSource,
    Telling, Timekeeper, ToldSource, Tracing, begin_of, capture_in, names_for, peer_of,
    random_word,
};
use std::cell::RefCell;
use std::io::Write;
use std::net::{Net, SocketAddrV6};
use std::random::RandomSource;
use std::rt::{Clock, Files};

// How many pings there are where the words don't say.
const DEFAULT_COUNT: u64 = 1;

const _: () = prove!(DEFAULT_COUNT == 1);

// Sends pings over a link of this source.
fn ping_from<R: AllocGlobal + Draws, S: LinkSource, T: Timekeeper, O: Write>(
    rt: &R,
    source: &S,
    time: &mut T,
    options: &PingOptions,
    out: &mut O,
) -> Result<Status, Stop>
    ensures told { IfOk result (IsPinged (O.contents out.old) (O.contents out.new) options.now) }
    ensures pings { IfOk result (PingsBy ⟦<S::Link as Link>⟧.sends ⟦<S::Link as Link>⟧.receives
        ⟦<S::Link as Link>⟧.fault_count T.tells (S.reaches source.now)
        (IsRandom (R.draws rt.now)) options.now) }
{
    let word = random_word(rt)?;
    let (link, server) = source.open()?;
    let mut link = link;
    let pinging = Pinging {
        server,
        count: options.times.unwrap_or(DEFAULT_COUNT),
        give_up: options.give_up,
        word,
        json: options.json,
    };
    let ended = ping_over(rt.alloc(), &mut link, time, &pinging, out);
    put_away(link);
    ended
}

// The same, over links of which it is told what passes.
fn ping_told<R: AllocGlobal + Files + Clock + RandomSource, S: Ends + Drop, O: Write, E: Write>(
    rt: &R,
    source: S,
    options: &PingOptions,
    showing: Showing<'_>,
    out: &mut O,
    err: &mut E,
) -> Result<Status, Stop>
    ensures { IfOk result (IsPinged (O.contents out.old) (O.contents out.new) options.now) }
{
    let mut time = ProgramTime::begin(rt)?;
    let begin = begin_of(rt, time.now()?)?;
    let file = capture_in(rt, showing.pcap)?;
    let file = match file {
        Some(file) => Some(RefCell::new(file)),
        None => None,
    };
    let screen = RefCell::new(Screen::new(&mut *err));
    let telling = Telling {
        alloc: rt.alloc(),
        time: time.again(),
        begin,
        screen: &screen,
        tracing: Tracing::of(options.trace, showing.is_coloured),
        file: file.as_ref(),
        give_up: options.give_up,
    };
    let source = ToldSource::new(source, telling);
    ping_from(rt, &source, &mut time, options, out)
}

// The same, over IPv6.
fn ping_six<R: AllocGlobal + Files + Net + Clock + RandomSource, O: Write, E: Write>(
    rt: &R,
    server: SocketAddrV6,
    options: &PingOptions,
    showing: Showing<'_>,
    out: &mut O,
    err: &mut E,
) -> Result<Status, Stop>
    ensures { IfOk result (IsPinged (O.contents out.old) (O.contents out.new) options.now) }
{
    let names = names_for(rt, MAX_PEERS)?;
    let source = SixSource {
        net: rt,
        server,
        names: &names,
        time: ProgramTime::begin(rt)?,
    };
    ping_told(rt, source, options, showing, out, err)
}

/// Sends pings to a server, and says how soon each was answered.
pub fn ping<R: AllocGlobal + Files + Net + Clock + RandomSource, O: Write, E: Write>(
    rt: &R,
    server: Server<'_>,
    options: &PingOptions,
    showing: Showing<'_>,
    out: &mut O,
    err: &mut E,
) -> Result<Status, Stop>
    // As many pings as the words say, or one, are told a line each; the status is 0 where each was answered, and else
    // 1.
    ensures { IfOk result (IsPinged (O.contents out.old) (O.contents out.new) options.now) }
{
    match peer_of(rt, server, err)? {
        Peer::Four(server) => {
            let source = FourSource { net: rt, server };
            ping_told(rt, source, options, showing, out, err)
        }
        Peer::Six(server) => ping_six(rt, server, options, showing, out, err),
    }
}
