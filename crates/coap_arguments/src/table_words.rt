//! The arguments of the subcommands.
use crate::arguments::{Argument, Form};

pub(crate) const HEX: Argument = Argument {
    form: Form::Required,
    name: "HEX",
    help: "the bytes of a datagram, as 40010001",
};

pub(crate) const PATH: Argument = Argument {
    form: Form::Required,
    name: "PATH",
    help: "segments joined by /, as sensors/temperature",
};

// BODY of `answer`.
pub(crate) const HELD_BODY: Argument = Argument {
    form: Form::Required,
    name: "BODY",
    help: "what the server holds there, as text",
};

// BODY of `pair`.
pub(crate) const PAIR_BODY: Argument = Argument {
    form: Form::Required,
    name: "BODY",
    help: "what is put there, as text",
};

// BODY of a request.
pub(crate) const SENT_BODY: Argument = Argument {
    form: Form::Optional,
    name: "BODY",
    help: "the body, as text; behind -- where it begins with -, as in: coap put 5683 t -- -5.2",
};

// PORT of a server that is run.
pub(crate) const OWN_PORT: Argument = Argument {
    form: Form::Required,
    name: "PORT",
    help: "the UDP port, as 5683",
};

// PORT of a server that is asked.
pub(crate) const SERVER_PORT: Argument = Argument {
    form: Form::Required,
    name: "PORT|URI",
    help: "the server's UDP port, as 5683; or a URI in the place of PORT and PATH, as coap://192.0.2.1/sensors/t, with \
        :PORT behind the host where it is another than 5683. The host is an IPv4 address, an IPv6 address in brackets, \
        as [::1], or a name",
};

// PORT of a server that is asked, and no path of it.
pub(crate) const SERVER_ALONE: Argument = Argument {
    form: Form::Required,
    name: "PORT|URI",
    help: "the server's UDP port, as 5683; or a URI without a path, as coap://192.0.2.1, with :PORT behind the host \
        where it is another than 5683. The host is an IPv4 address, an IPv6 address in brackets, as [::1], or a name",
};

// PATH at a server that is asked.
pub(crate) const SERVER_PATH: Argument = Argument {
    form: Form::Optional,
    name: "PATH",
    help: "segments joined by /, as sensors/temperature; behind a URI there is none",
};

pub(crate) const COUNT: Argument = Argument {
    form: Form::Optional,
    name: "COUNT",
    help: "how many datagrams, or forever, which stands where it is left out",
};

pub(crate) const FILE: Argument = Argument {
    form: Form::Required,
    name: "FILE",
    help: "the file of the script, as examples/get.sim",
};

pub(crate) const BODY_FILE: Argument = Argument {
    form: Form::Single { value_name: "FILE" },
    name: "file",
    help: "the body is what is in this file, in place of BODY; - is standard input, to its end",
};

pub(crate) const FORMAT: Argument = Argument {
    form: Form::Single {
        value_name: "N|NAME",
    },
    name: "format",
    help: "the format of the body: a number, or one of text/plain, application/link-format, application/xml, \
           application/octet-stream, application/json and application/cbor",
};

pub(crate) const ACCEPT: Argument = Argument {
    form: Form::Single {
        value_name: "N|NAME",
    },
    name: "accept",
    help: "the format that is wanted: a number, or one of text/plain, application/link-format, application/xml, \
           application/octet-stream, application/json and application/cbor",
};

pub(crate) const ETAG: Argument = Argument {
    form: Form::Repeated { value_name: "HEX" },
    name: "etag",
    help: "the entity-tag of a body that is there already, which is not sent again; at most 4",
};

pub(crate) const IF_MATCH: Argument = Argument {
    form: Form::Repeated { value_name: "HEX" },
    name: "if-match",
    help: "only where PATH holds what this entity-tag names, or another one that is given so; at most 4",
};

pub(crate) const IF_NONE_MATCH: Argument = Argument {
    form: Form::Flag,
    name: "if-none-match",
    help: "only where PATH holds nothing",
};

pub(crate) const TIMES: Argument = Argument {
    form: Form::Single { value_name: "N" },
    name: "count",
    help: "ends after this many values; with neither this nor --seconds it goes on until the server ends it. \
           A signal that ends it sends no cancel: the server goes on until a notification is not acknowledged",
};

// --count of readings.
pub(crate) const READINGS: Argument = Argument {
    form: Form::Single { value_name: "N" },
    name: "count",
    help: "with --every, ends after this many readings",
};

pub(crate) const EVERY: Argument = Argument {
    form: Form::Single {
        value_name: "SECONDS",
    },
    name: "every",
    help: "reads again after so many seconds, at least 1, and so on and on, a line each; one that fails is told on \
        standard error. Not with --etag",
};

pub(crate) const AGAIN: Argument = Argument {
    form: Form::Single {
        value_name: "SECONDS",
    },
    name: "again",
    help: "begins anew where no value came for so many seconds, at least 1, or the server ended it, and says so on \
        standard error; --count counts all values",
};

// --count of pings.
pub(crate) const PINGS: Argument = Argument {
    form: Form::Single { value_name: "N" },
    name: "count",
    help: "asks so often, one after the other; once where it is left out",
};

pub(crate) const SECONDS: Argument = Argument {
    form: Form::Single { value_name: "N" },
    name: "seconds",
    help: "ends after so many seconds",
};

pub(crate) const SIZE: Argument = Argument {
    form: Form::Single { value_name: "N" },
    name: "size",
    help: "how many bytes a block has at most that the client sends, or asks for behind the first: 16, 32, 64, 128, \
           256, 512, or 1024, which stands where it is left out",
};

pub(crate) const HOST: Argument = Argument {
    form: Form::Single { value_name: "HOST" },
    name: "host",
    help: "the server's address, as 192.0.2.1, ::1 or [fe80::1%2], of which 2 is the number of the interface, or its \
        name; 127.0.0.1 where it is left out",
};

pub(crate) const ADDRESS: Argument = Argument {
    form: Form::Single {
        value_name: "ADDRESS",
    },
    name: "address",
    help: "the address of this machine that is served at, as 192.0.2.1 or ::1, 127.0.0.1 where it is left out; 0.0.0.0 \
           and :: are each of them, and an answer may leave from another one than was asked, which the client then \
           doesn't take. On an address other than 127.0.0.1 and ::1 whoever reaches the port may write, make and \
           delete every path",
};

pub(crate) const HOLD: Argument = Argument {
    form: Form::Repeated {
        value_name: "PATH=BODY",
    },
    name: "hold",
    help: "the server holds BODY at PATH, as text, and so at each other path that is given, as in: coap serve 5683 \
        forever --hold lamp=off",
};

pub(crate) const DELAY: Argument = Argument {
    form: Form::Repeated {
        value_name: "PATH=MS",
    },
    name: "delay",
    help: "a request of PATH waits for so many milliseconds, and so for each other path that is given; at most 16",
};

pub(crate) const TRACE: Argument = Argument {
    form: Form::ShortFlag { letter: 'v' },
    name: "trace",
    help: "tells on standard error of each datagram as it goes and comes: the moment in milliseconds, > or <, the \
        address, \
           and the message in words",
};

pub(crate) const CHANGES: Argument = Argument {
    form: Form::Flag,
    name: "changes",
    help: "tells on standard error of each request that is applied: the moment in milliseconds, the method, the path, \
        v and \
           the version, and the first 64 bytes of the body, with .. behind a longer one",
};

// --give-up of a request.
pub(crate) const GIVE_UP: Argument = Argument {
    form: Form::Single {
        value_name: "SECONDS",
    },
    name: "give-up",
    help: "gives up after so many seconds; the request may still be applied",
};

// --give-up of an observation.
pub(crate) const GIVE_UP_OBSERVING: Argument = Argument {
    form: Form::Single {
        value_name: "SECONDS",
    },
    name: "give-up",
    help: "gives up where no first value came in so many seconds",
};

// --give-up of a ping.
pub(crate) const GIVE_UP_PINGING: Argument = Argument {
    form: Form::Single {
        value_name: "SECONDS",
    },
    name: "give-up",
    help: "gives up after so many seconds, and so each time",
};

pub(crate) const JSON: Argument = Argument {
    form: Form::Flag,
    name: "json",
    help: "prints each report as an object of JSON, one a line",
};

// --json of a server.
pub(crate) const CHANGES_IN_JSON: Argument = Argument {
    form: Form::Flag,
    name: "json",
    help: "with --changes, tells of each as an object of JSON, one a line. Not with --trace",
};

pub(crate) const PCAP: Argument = Argument {
    form: Form::Single { value_name: "FILE" },
    name: "pcap",
    help: "writes each datagram that goes and comes to this file, which tshark and coap dump --pcap read",
};

// --pcap of what is read.
pub(crate) const READ_PCAP: Argument = Argument {
    form: Form::Single { value_name: "FILE" },
    name: "pcap",
    help: "reads the datagrams of UDP in this file, a capture of pcap, in place of standard input",
};

// --chart of what is read.
pub(crate) const READ_CHART: Argument = Argument {
    form: Form::Flag,
    name: "chart",
    help: "with --pcap, draws the datagrams for reading, in place of lines",
};

// --journal of a server.
pub(crate) const JOURNAL: Argument = Argument {
    form: Form::Single { value_name: "FILE" },
    name: "journal",
    help: "keeps in this file what the server takes, before it answers, and goes on from there: what was done stays, \
        and a copy of a request is not applied twice, wherever the server was ended. The file has its word and \
        configuration; --hold is for a path that holds nothing. With an address of IPv4",
};

pub(crate) const RENEW: Argument = Argument {
    form: Form::Flag,
    name: "renew",
    help: "with --journal, is silent for 400 seconds, and begins the file anew then, with what the paths hold: it gets \
        short, and observers and partial uploads are lost",
};

// --script of a server.
pub(crate) const SCRIPT: Argument = Argument {
    form: Form::Single { value_name: "FILE" },
    name: "script",
    help: "sets the server up by the lines of this file: hold PATH FORMAT BODY, delay PATH MS, plain PATH and limit N; \
        a line that begins with # says nothing",
};

pub(crate) const IN_HEX: Argument = Argument {
    form: Form::Flag,
    name: "hex",
    help: "prints values in hex",
};

// --word of a pair, which is 1 where it is left out.
pub(crate) const PAIR_WORD: Argument = Argument {
    form: Form::Single {
        value_name: "N|random",
    },
    name: "word",
    help: "the word that each end begins with, 1 where it is left out",
};

// --word of a server, which is drawn where it is left out and the server serves for ever.
pub(crate) const OWN_WORD: Argument = Argument {
    form: Form::Single {
        value_name: "N|random",
    },
    name: "word",
    help: "the word that the server begins with; where it is left out, a random one if COUNT is forever, and else 1",
};

// --word, which is drawn where it is left out.
pub(crate) const DRAWN_WORD: Argument = Argument {
    form: Form::Single {
        value_name: "N|random",
    },
    name: "word",
    help: "the word that the client begins with, a random one where it is left out",
};

pub(crate) const LIMIT: Argument = Argument {
    form: Form::Single { value_name: "N" },
    name: "limit",
    help: "the longest body in bytes, from 1 to 1048576, 65536 where it is left out",
};

pub(crate) const REMEMBER: Argument = Argument {
    form: Form::Single { value_name: "N" },
    name: "remember",
    help: "how many messages an end remembers to tell duplicates, from 1 to 1048576, 4096 where it is left out; each \
        for 247 \
           seconds, and while it remembers so many it takes no new one",
};

pub(crate) const STORE: Argument = Argument {
    form: Form::Single {
        value_name: "list|map",
    },
    name: "store",
    help: "what the server keeps its resources in, a list or a map; the map where it is left out",
};

pub(crate) const CHART: Argument = Argument {
    form: Form::Flag,
    name: "chart",
    help: "draws the run for reading, in place of its lines: the client on the left, the server on the right, a row \
        for each \
           thing that happens, as in: coap sim examples/get.sim --chart",
};

// --client of a run.
pub(crate) const CLIENT_END: Argument = Argument {
    form: Form::Single {
        value_name: "A.B.C.D:PORT",
    },
    name: "client",
    help: "where the client of the script stands, 127.0.0.1:40001 where it is left out",
};

// --server of a run.
pub(crate) const SERVER_END: Argument = Argument {
    form: Form::Single {
        value_name: "A.B.C.D:PORT",
    },
    name: "server",
    help: "where the server of the script stands, 127.0.0.1:5683 where it is left out; not where the client does",
};

pub(crate) const PLAIN: Argument = Argument {
    form: Form::Repeated { value_name: "PATH" },
    name: "plain",
    help: "tells observers of PATH in Non-confirmable messages where it may, and so of each other path that is given; \
        at most 16",
};
