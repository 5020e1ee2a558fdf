//! A client over sockets, which asks what the words say.
ghost use Rattle.std.specs.Prelude.{◌≡◌, IfOk};
ghost use Rattle.coap_wires.specs.Words.{IsDrawnWord};
ghost use Rattle.coap_asking.specs.Asked.{is_observe, period_of};
ghost use Rattle.coap_wires.specs.Hosts.{IsServer, Knows};
ghost use Rattle.coap_asking.specs.Tasks.{IsAsked, IsAskedBy, IsDiscovered, IsDiscoveredBy, IsDone, IsDoneTo};
ghost use Rattle.coap_asking.specs.Tasks.{IsObservation, IsTask};
ghost use Rattle.coap_wires.specs.declared.hosts.Peer.TheVariants as peers;

use crate::discovering::{core_path, discover_over};
use crate::observe::observe_over;
use crate::polling::{Polling, poll_over};
use crate::request::{body_of, request_of};
use crate::watching::{Watching, watch_over};
use bytes::Bytes;
use coap_arguments::{AskOptions, Server, What};
use coap_links::{Link, Trace};
use coap_status::{Status, Stop};
use coap_types::{Endpoint, Path, Request};
use coap_waits::{Connection, Silence, SilentLink, Terms, ask_over, progress_on};
use coap_wires::{
    Draws, Ends, FourSource, LinkSource, MAX_PEERS, Patience, PatientLink, Peer, ProgramTime,
    Screen, SharedWriter, Showing, SixSource, Telling, Timekeeper, ToldSource, Tracing, begin_of,
    capture_in, erase, names_for, patience_on, peer_of, word_of,
};
use std::alloc::Global;
use std::cell::RefCell;
use std::hash::{BuildHasher, RandomState};
use std::io::Write;
use std::net::{Net, SocketAddrV6};
use std::random::RandomSource;
use std::rt::{Clock, Files};

/// What a client is handed for what the words ask for.
#[derive(Drop)]
pub enum Task<'a> {
    /// A request.
    Request(Request),
    /// The observation of a path.
    Observation(&'a Path),
    /// The observation of a path, anew where no value came for so many seconds.
    Watch(&'a Path, u64),
    /// A GET of a path again and again, so many seconds after the last time.
    Polling(&'a Path, u64),
    /// A request for links.
    Discovery(Request),
}

impl<'a> Task<'a> {
    // How many bytes the body has that is sent.
    fn body_len(&self) -> usize {
        match self {
            Task::Request(request) => request.body.len(),
            Task::Observation(_) | Task::Watch(_, _) | Task::Polling(_, _) | Task::Discovery(_) =>
                0,
        }
    }
}

/// What is asked, and how.
#[derive(Drop)]
pub(crate) struct Asked<'t, 'o> {
    /// What is asked.
    pub task: Task<'t>,
    /// How.
    pub options: &'o AskOptions,
    /// The word that the client begins with.
    pub word: u64,
}

// Whether the words ask for an observation.
fn is_observe(what: What<'_>) -> bool
    ensures { result ≡ is_observe what.entry }
{
    match what {
        What::Observe => true,
        What::Get | What::Put(_) | What::Post(_) | What::Delete => false,
    }
}

// After how many seconds the words ask for it again.
fn period_of(what: What<'_>, options: &AskOptions) -> Option<u64>
    ensures { result ≡ period_of what.entry options.now }
{
    match what {
        What::Get => options.every,
        What::Put(_) | What::Post(_) | What::Delete | What::Observe => None,
    }
}

// The task of an observation.
fn observation_of<'a>(path: &'a Path, options: &AskOptions) -> Task<'a>
    ensures { IsObservation path.now options.now result }
{
    match options.again {
        Some(again) => Task::Watch(path, again),
        None => Task::Observation(path),
    }
}

// What a client is handed for what the words ask for: the body of a request is read.
fn task_of<'a, R: AllocGlobal + Files>(
    rt: &R,
    path: &'a Path,
    what: What<'_>,
    options: &AskOptions,
) -> Result<Task<'a>, Stop>
    ensures { IfOk result (IsTask what.entry path.now options.now) }
{
    if is_observe(what) {
        return Ok(observation_of(path, options));
    }
    if let Some(every) = period_of(what, options) {
        return Ok(Task::Polling(path, every));
    }
    let body = body_of(rt, what, options.limit)?;
    let request = request_of(path, what, options, body)?;
    Ok(Task::Request(request))
}

// Has a client of this server do a task that needs one link, and prints what came of it.
fn do_once<L: Link, T: Timekeeper, H: BuildHasher + Drop, O: Write, E: Write>(
    alloc: Global,
    connection: &mut Connection<'_, '_, '_, L, T, E>,
    server: Endpoint,
    hasher: H,
    asked: Asked<'_, '_>,
    out: &mut O,
) -> Result<Status, Stop>
    ensures { IfOk result (IsDoneTo (O.contents out.old) (O.contents out.new) server asked.entry) }
{
    let Asked {
        task,
        options,
        word,
    } = asked;
    let terms = Terms::of(options, word);
    match task {
        Task::Request(request) => {
            ask_over(alloc, connection, server, hasher, request, &terms, out)
        }
        Task::Discovery(request) => {
            discover_over(alloc, connection, server, hasher, request, &terms, out)
        }
        Task::Observation(path) => observe_over(
            alloc, connection, server, hasher, path, options, word, out,
        ),
        Task::Polling(path, every) => {
            let polling = Polling {
                path,
                every,
                options,
            };
            poll_over(alloc, connection, server, hasher, &polling, word, out)
        }
        // It needs a link for each registration.
        Task::Watch(_, _) => Err(Stop::Failed),
    }
}

// The same, beside a screen, over a link of its own: how far a body is, a long wait, and that nothing is heard, are
// told of.
fn ask_on<L: Link + Drop, R: Clock, H: BuildHasher + Drop, O: Write, W: Write>(
    alloc: Global,
    link: L,
    server: Endpoint,
    time: &mut ProgramTime<'_, R>,
    hasher: H,
    asked: Asked<'_, '_>,
    is_terminal: bool,
    out: &mut O,
    screen: &RefCell<Screen<W>>,
) -> Result<Status, Stop>
    ensures { IfOk result (IsDoneTo (O.contents out.old) (O.contents out.new) server asked.entry) }
{
    let len = asked.task.body_len() as u64;
    let progress = progress_on(time.again(), screen, server, len, is_terminal);
    let link = Trace::new(link, progress);
    let is_wanted = is_terminal || asked.options.trace;
    let writer = SharedWriter::new(screen);
    let patience = patience_on(time.again(), writer, asked.options.give_up, is_wanted);
    let link = PatientLink::new(link, patience);
    let silence = silence_of(&asked, time.again(), SharedWriter::new(screen));
    let mut link = SilentLink::new(link, silence);
    let mut err = SharedWriter::new(screen);
    let mut connection = Connection::new(&mut link, time, &mut err);
    do_once(alloc, &mut connection, server, hasher, asked, out)
}

// Who says that nothing is heard of an observation.
fn silence_of<T: Timekeeper + Drop, W: Write + Drop>(
    asked: &Asked<'_, '_>,
    time: T,
    out: W,
) -> Option<Silence<T, W>> {
    match asked.task {
        Task::Observation(_) => Some(Silence::new(time, out)),
        Task::Request(_) | Task::Watch(_, _) | Task::Polling(_, _) | Task::Discovery(_) => None,
    }
}

// Has clients of the server to which these links go do a task, beside a screen.
fn ask_from<S: LinkSource, R: Clock, H: BuildHasher + Copy + Drop, O: Write, W: Write>(
    alloc: Global,
    source: &S,
    time: &mut ProgramTime<'_, R>,
    hasher: H,
    asked: Asked<'_, '_>,
    is_terminal: bool,
    out: &mut O,
    screen: &RefCell<Screen<W>>,
) -> Result<Status, Stop>
    ensures { IfOk result (IsDone (O.contents out.old) (O.contents out.new) (S.reaches source.now) asked.entry) }
{
    if let Task::Watch(path, again) = asked.task {
        let watching = Watching {
            path,
            again,
            options: asked.options,
            word: asked.word,
        };
        let mut err = SharedWriter::new(screen);
        return watch_over(alloc, source, time, &mut err, hasher, &watching, out);
    }
    let (link, server) = source.open()?;
    ask_on(
        alloc,
        link,
        server,
        time,
        hasher,
        asked,
        is_terminal,
        out,
        screen,
    )
}

// The same, over links of which it is told what passes.
fn ask_told<R: AllocGlobal + Files + Clock + RandomSource, S: Ends + Drop, O: Write, E: Write>(
    rt: &R,
    source: S,
    asked: Asked<'_, '_>,
    showing: Showing<'_>,
    out: &mut O,
    err: &mut E,
) -> Result<Status, Stop>
    ensures { IfOk result (IsDone (O.contents out.old) (O.contents out.new) (S.reaches source) asked.entry) }
{
    let mut time = ProgramTime::begin(rt)?;
    let begin = begin_of(rt, time.now()?)?;
    let hasher = RandomState::new(rt)?;
    let file = capture_in(rt, showing.pcap)?;
    let file = match file {
        Some(file) => Some(RefCell::new(file)),
        None => None,
    };
    let screen = RefCell::new(Screen::new(&mut *err));
    let telling = Telling {
        alloc: rt.alloc(),
        time: time.again(),
        begin,
        screen: &screen,
        tracing: Tracing::of(asked.options.trace, showing.is_coloured),
        file: file.as_ref(),
        give_up: asked.options.give_up,
    };
    let source = ToldSource::new(source, telling);
    let is_terminal = showing.is_terminal;
    let ended = ask_from(
        rt.alloc(),
        &source,
        &mut time,
        hasher,
        asked,
        is_terminal,
        out,
        &screen,
    );
    erase(&screen);
    ended
}

// The same, over IPv6.
fn ask_six<R: AllocGlobal + Files + Net + Clock + RandomSource, O: Write, E: Write>(
    rt: &R,
    server: SocketAddrV6,
    asked: Asked<'_, '_>,
    showing: Showing<'_>,
    out: &mut O,
    err: &mut E,
) -> Result<Status, Stop>
    ensures { IfOk result (IsDone (O.contents out.old) (O.contents out.new) (Knows (peers.Six server)) asked.entry) }
{
    let names = names_for(rt, MAX_PEERS)?;
    let source = SixSource {
        net: rt,
        server,
        names: &names,
        time: ProgramTime::begin(rt)?,
    };
    ask_told(rt, source, asked, showing, out, err)
}

// Asks the server that the words say, wherever it is.
fn ask_at<R: AllocGlobal + Files + Net + Clock + RandomSource, O: Write, E: Write>(
    rt: &R,
    server: Server<'_>,
    asked: Asked<'_, '_>,
    showing: Showing<'_>,
    out: &mut O,
    err: &mut E,
) -> Result<Status, Stop>
    ensures { IfOk result (IsDone (O.contents out.old) (O.contents out.new) (IsServer server.entry) asked.entry) }
{
    match peer_of(rt, server, err)? {
        Peer::Four(server) => {
            let source = FourSource { net: rt, server };
            ask_told(rt, source, asked, showing, out, err)
        }
        Peer::Six(server) => ask_six(rt, server, asked, showing, out, err),
    }
}

/// Asks a server for what the words say; whether standard error is a terminal counts for what is said there of a long
/// wait and of a body in blocks.
pub fn ask<R: AllocGlobal + Files + Net + Clock + RandomSource + Draws, O: Write, E: Write>(
    rt: &R,
    server: Server<'_>,
    path: &Path,
    what: What<'_>,
    options: &AskOptions,
    showing: Showing<'_>,
    out: &mut O,
    err: &mut E,
) -> Result<Status, Stop>
    // What the words ask for is done at the server that they say, with the word that is chosen, by a client that begins
    // by the options.
    ensures asked { IfOk result (IsAsked (O.contents out.old) (O.contents out.new) server.entry path.now what.entry
        options.now) }
    // A client whose word is not chosen begins with one that is drawn.
    ensures drawn { IfOk result (IsAskedBy (IsDrawnWord (R.draws rt.now) options.now.word) (O.contents out.old)
        (O.contents out.new) server.entry path.now what.entry options.now) }
{
    let word = word_of(rt, options.word)?;
    let task = task_of(rt, path, what, options)?;
    let asked = Asked {
        task,
        options,
        word,
    };
    ask_at(rt, server, asked, showing, out, err)
}

/// Asks a server what it has, by the options of the words.
pub fn discover<R: AllocGlobal + Files + Net + Clock + RandomSource + Draws, O: Write, E: Write>(
    rt: &R,
    server: Server<'_>,
    options: &AskOptions,
    showing: Showing<'_>,
    out: &mut O,
    err: &mut E,
) -> Result<Status, Stop>
    // A server is asked for its links with the word that is chosen, by a client that begins by the options; these are
    // written, or the first bad place of a text that spells none.
    ensures asked { IfOk result (IsDiscovered (O.contents out.old) (O.contents out.new) server.entry options.now) }
    // A client that asks for links begins with a word that is drawn where none is chosen.
    ensures drawn { IfOk result (IsDiscoveredBy (IsDrawnWord (R.draws rt.now) options.now.word) (O.contents out.old)
        (O.contents out.new) server.entry options.now) }
{
    let word = word_of(rt, options.word)?;
    let path = core_path(rt.alloc())?;
    let request = request_of(&path, What::Get, options, Bytes::new())?;
    let asked = Asked {
        task: Task::Discovery(request),
        options,
        word,
    };
    ask_at(rt, server, asked, showing, out, err)
}
