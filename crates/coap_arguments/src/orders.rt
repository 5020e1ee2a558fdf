//! What the words of the program can ask for, and what can be wrong with them.
ghost use Rattle.std.specs.Prelude.{◌≡◌};
ghost use Rattle.coap_arguments.specs.Wrongs.{wrong_number};

use crate::hosts::{Address, Server};
use crate::refusals::{
    AddressRefusal, BesideRefusal, EndsRefusal, NumberRefusal, SettingRefusal, TagsRefusal,
    TogetherRefusal, UriRefusal,
};
use coap_types::{BodyLimit, Endpoint, Path, PathRefusal, Remembered, Szx, Tags};
use thiserror::Error;

/// What the program is asked to do.
#[derive(Drop)]
pub enum Order<'a> {
    /// Say which version of the program it is.
    Version,
    /// Show what a datagram says.
    Show {
        /// The datagram.
        datagram: Vec<u8>,
    },
    /// Show what the datagrams say that standard input has in hex, one a line.
    Dump,
    /// Show what the datagrams say that a capture has.
    DumpCapture {
        /// The file of the capture.
        file: &'a str,
        /// Whether they are drawn as a chart, in place of lines.
        chart: bool,
    },
    /// Answer a datagram as a server with one resource does.
    Answer {
        /// Where the resource is.
        path: Path,
        /// What it holds: the bytes of this text.
        body: &'a str,
        /// The datagram.
        datagram: Vec<u8>,
    },
    /// Put a body at a path and get it back, between two ends of this program.
    Pair {
        /// Where the body is put.
        path: Path,
        /// The body: the bytes of this text.
        body: &'a str,
        /// The word that each end begins with.
        word: WordChoice,
        /// The longest body that each end takes.
        limit: BodyLimit,
        /// How many messages each end remembers.
        remembered: Remembered,
    },
    /// Serve until so many datagrams came.
    Serve {
        /// The UDP port.
        port: u16,
        /// How many datagrams; `FOREVER` for `forever`, and where COUNT is left out.
        count: u64,
        /// How it is served, and what.
        options: ServeOptions,
        /// The file that says what else the server is handed before it serves.
        script: Option<&'a str>,
        /// The file that takes each datagram, as a capture.
        pcap: Option<&'a str>,
        /// The file that keeps what the server takes.
        journal: Option<Journal<'a>>,
    },
    /// Ask something of a server.
    Ask {
        /// The server.
        server: Server<'a>,
        /// Where the resource is.
        path: Path,
        /// What is asked for.
        what: What<'a>,
        /// How it is asked for.
        options: AskOptions,
        /// The file that takes each datagram, as a capture.
        pcap: Option<&'a str>,
    },
    /// Ask a server for the links of its resources (RFC 6690).
    Discover {
        /// The server.
        server: Server<'a>,
        /// How they are asked for.
        options: AskOptions,
        /// The file that takes each datagram, as a capture.
        pcap: Option<&'a str>,
    },
    /// Ask a server whether it is there, by an Empty message (RFC 7252, section 4.3).
    Ping {
        /// The server.
        server: Server<'a>,
        /// How it is asked.
        options: PingOptions,
        /// The file that takes each datagram, as a capture.
        pcap: Option<&'a str>,
    },
    /// Run a script.
    Sim {
        /// The file that it is in.
        file: &'a str,
        /// What its server keeps its resources in.
        store: StoreKind,
        /// The paths whose observers are told in Non-confirmable messages where they may be: at most
        /// `MAX_PLAINS`, each once, in the order in which they are named first.
        plains: Vec<Path>,
        /// How many messages each of its ends remembers.
        remembered: Remembered,
        /// Whether the run is drawn as a chart, in place of its lines.
        chart: bool,
        /// Where its client stands.
        client: Endpoint,
        /// Where its server stands, which is another address or another port.
        server: Endpoint,
        /// The file that takes each datagram, as a capture.
        pcap: Option<&'a str>,
    },
}

/// What is asked of a server (RFC 7252, section 5.8; RFC 7641).
#[derive(Clone, Copy, Debug)]
pub enum What<'a> {
    /// What it holds at the path.
    Get,
    /// That it hold this there.
    Put(Content<'a>),
    /// That it process this there.
    Post(Content<'a>),
    /// That it hold nothing there.
    Delete,
    /// What it holds at the path, each time that this changes (RFC 7641).
    Observe,
}

/// Where a body is taken from.
#[derive(Clone, Copy, Debug)]
pub enum Content<'a> {
    /// The bytes of this text.
    Text(&'a str),
    /// The bytes of the file of this name.
    File(&'a str),
}

/// How something is asked for. What a subcommand does not take is left out.
#[derive(Drop)]
pub struct AskOptions {
    /// The size of the client's blocks.
    pub size: Szx,
    /// Whether each datagram is told of.
    pub trace: bool,
    /// The format of the body.
    pub format: Option<u16>,
    /// The format that is wanted.
    pub accept: Option<u16>,
    /// The representations that the client has: one of them that is valid is not sent again.
    pub etags: Tags,
    /// The representations of which one has to be there; none: no condition.
    pub if_match: Tags,
    /// Whether nothing may be there yet.
    pub if_none_match: bool,
    /// After how many seconds, at least 1, a body is asked for again; None: it is asked for once.
    pub every: Option<u64>,
    /// After how many values an observation is cancelled, or after how many readings a body is asked for no more.
    pub times: Option<u64>,
    /// After how many seconds an observation is cancelled.
    pub seconds: Option<u64>,
    /// After how many seconds without a value, at least 1, an observation is begun anew; None: it is begun once.
    pub again: Option<u64>,
    /// Whether values are printed in hex.
    pub hex: bool,
    /// Whether each report is an object of JSON.
    pub json: bool,
    /// After how many seconds the client gives up.
    pub give_up: Option<u64>,
    /// The word that the client begins with.
    pub word: WordChoice,
    /// The longest body that the client takes.
    pub limit: BodyLimit,
    /// How many messages the client remembers.
    pub remembered: Remembered,
}

/// How a server is asked whether it is there.
#[derive(Clone, Copy, Debug)]
pub struct PingOptions {
    /// How often, one after the other; None: once.
    pub times: Option<u64>,
    /// After how many seconds the program gives one up.
    pub give_up: Option<u64>,
    /// Whether each datagram is told of.
    pub trace: bool,
    /// Whether each report is an object of JSON.
    pub json: bool,
}

/// How something is served, and what.
#[derive(Drop)]
pub struct ServeOptions {
    /// The address that is served at.
    pub address: Address,
    /// What the server holds besides its own resource, in order.
    pub holds: Vec<Hold>,
    /// The paths whose requests wait, in order: at most `MAX_DELAYS`.
    pub delays: Vec<Delay>,
    /// The paths whose observers are told in Non-confirmable messages where they may be: at most
    /// `MAX_PLAINS`, each once, in the order in which they are named first.
    pub plains: Vec<Path>,
    /// Whether each datagram is told of.
    pub trace: bool,
    /// Whether each request that is applied is told of.
    pub changes: bool,
    /// Whether that is told as an object of JSON.
    pub json: bool,
    /// The word that the server begins with.
    pub word: WordChoice,
    /// The longest body that the server takes.
    pub limit: BodyLimit,
    /// How many messages the server remembers.
    pub remembered: Remembered,
}

/// The file in which a server keeps what it takes, and what else the words say of how it begins. What they don't say
/// is the file's where a server began in it.
#[derive(Clone, Copy, Debug)]
pub struct Journal<'a> {
    /// The file of this name.
    pub file: &'a str,
    /// Whether the words say its word.
    pub says_word: bool,
    /// Whether they say its limit.
    pub says_limit: bool,
    /// Whether they say how many messages it remembers.
    pub says_remembered: bool,
    /// Whether the file is begun anew, after a silence, with what the paths hold.
    pub renews: bool,
}

/// What a server holds at a path.
#[derive(Drop)]
pub struct Hold {
    /// Where.
    pub path: Path,
    /// What.
    pub body: Vec<u8>,
}

/// How long a request of a path waits.
#[derive(Drop)]
pub struct Delay {
    /// The path.
    pub path: Path,
    /// So many milliseconds.
    pub ms: u64,
}

/// The word that an end begins with.
#[derive(Clone, Copy, Debug, PartialEq, Eq)]
pub enum WordChoice {
    /// This one.
    Given(u64),
    /// A random one, which the program draws.
    Random,
}

/// Which store the server of a script keeps its resources in. Both keep the same law, and where memory
/// is ample a script prints the same over either.
#[derive(Clone, Copy, Debug, PartialEq, Eq)]
pub enum StoreKind {
    /// A list of entries.
    List,
    /// A map by path.
    Map,
}

/// The word that each end of a pair, and a server of so many datagrams, begins with where none is given.
pub const DEFAULT_WORD: u64 = 1;

const _: () = prove!(DEFAULT_WORD == 1);

/// The number of datagrams that stands for `forever`: the most that there can be.
pub const FOREVER: u64 = u64::MAX;

const _: () = prove!(FOREVER == 18_446_744_073_709_551_615);

/// The port of a server where its URI says none (RFC 7252, section 6.1).
pub const DEFAULT_PORT: u16 = 5_683;

const _: () = prove!(DEFAULT_PORT == 5_683);

/// How many paths a server has at most whose observers are told in Non-confirmable messages.
pub const MAX_PLAINS: usize = 16;

const _: () = prove!(MAX_PLAINS == 16);

/// How many paths of a server have a delay at most.
pub const MAX_DELAYS: usize = 16;

const _: () = prove!(MAX_DELAYS == 16);

/// Why the words give no order. `Words`, `Path`, `Number`, `Word`, `Address`, `Size`, `Tags`, `Setting`,
/// `Body`, `Store`, `Plains`, `Ends`, `Together`, `NoPath`, `Uri` and `Beside` are one refusal, that of wrong words,
/// with a text of its own for each.
/// The refusals are tested in the order of their numbers.
#[derive(Debug, Drop, Error)]
pub enum Wrong {
    /// The words are no command line of the program, or ask for help.
    #[error("{0}")]
    Words(clap::Error),
    /// PATH, or the value of `--plain`, is no path.
    #[error("PATH is no path: {0}")]
    Path(PathRefusal),
    /// A number is out of its range.
    #[error("{0}")]
    Number(NumberRefusal),
    /// `--word` is no choice of a word.
    #[error("--word is neither random nor a number from 0 to 18446744073709551615")]
    Word,
    /// An address is none.
    #[error("{0}")]
    Address(AddressRefusal),
    /// `--size` is no size of a block.
    #[error("--size is none of 16, 32, 64, 128, 256, 512 and 1024")]
    Size,
    /// Entity-tags are none, or too many.
    #[error("{0}")]
    Tags(TagsRefusal),
    /// A value says nothing of how a server is set up, or there are too many.
    #[error("{0}")]
    Setting(SettingRefusal),
    /// Both of BODY and `--file` are there, or neither.
    #[error("give either BODY or --file")]
    Body,
    /// `--store` names no store.
    #[error("--store is neither list nor map")]
    Store,
    /// `--plain` names over `MAX_PLAINS` paths.
    #[error("--plain names more than 16 paths")]
    Plains,
    /// The ends of a run have no place to stand at, or one for both.
    #[error("{0}")]
    Ends(EndsRefusal),
    /// Options of `get` don't go together.
    #[error("{0}")]
    Together(TogetherRefusal),
    /// PATH is left out behind a PORT.
    #[error("give PATH behind PORT, or a URI in the place of both, as coap://127.0.0.1/temperature")]
    NoPath,
    /// A URI says no resource that the program asks for.
    #[error("{0}")]
    Uri(UriRefusal),
    /// Beside a URI stands what it says itself.
    #[error("{0}")]
    Beside(BesideRefusal),
    /// HEX is not the hex of any list of bytes.
    #[error("bad hex")]
    Hex,
    /// An allocation was refused.
    #[error("no memory")]
    Memory,
}

impl Wrong {
    /// The number of the refusal: 1 for wrong words, 2 for wrong hex, 3 for want of memory.
    pub fn number(&self) -> u8
        // Wrong words of each kind have number 1, hex that is none 2, and want of memory 3.
        ensures { result ≡ wrong_number self.now }
    {
        match self {
            Wrong::Words(_)
            | Wrong::Path(_)
            | Wrong::Number(_)
            | Wrong::Word
            | Wrong::Address(_)
            | Wrong::Size
            | Wrong::Tags(_)
            | Wrong::Setting(_)
            | Wrong::Body
            | Wrong::Store
            | Wrong::Plains
            | Wrong::Ends(_)
            | Wrong::Together(_)
            | Wrong::NoPath
            | Wrong::Uri(_)
            | Wrong::Beside(_) => 1,
            Wrong::Hex => 2,
            Wrong::Memory => 3,
        }
    }
}
