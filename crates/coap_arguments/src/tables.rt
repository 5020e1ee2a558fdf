//! The subcommands of the program, and the arguments of each.
use crate::arguments::Subcommand;
use crate::table_words::{
    ACCEPT, ADDRESS, AGAIN, BODY_FILE, CHANGES, CHANGES_IN_JSON, CHART, CLIENT_END, COUNT, DELAY,
    DRAWN_WORD, ETAG, EVERY, FILE, FORMAT, GIVE_UP, GIVE_UP_OBSERVING, GIVE_UP_PINGING, HELD_BODY,
    HEX, HOLD, HOST, IF_MATCH, IF_NONE_MATCH, IN_HEX, JOURNAL, JSON, LIMIT, OWN_PORT, OWN_WORD,
    PAIR_BODY, PAIR_WORD, PATH, PCAP, PINGS, PLAIN, READ_CHART, READ_PCAP, READINGS, REMEMBER,
    RENEW, SCRIPT, SECONDS, SENT_BODY, SERVER_ALONE, SERVER_END, SERVER_PATH, SERVER_PORT, SIZE,
    STORE, TIMES, TRACE,
};

/// What help of the program says at its end: its subcommands by what they are for.
pub(crate) const GROUPS: &str = "Ask a server: get, put, post, delete, observe, discover, ping\n\
    Serve: serve, answer\n\
    Look: show, dump, pair, sim\n\n\
    coap COMMAND --help has an example of each, and coap --version says which version it is.";

/// The subcommands that ask nothing of a server elsewhere, in the order in which help lists them.
pub(crate) static OTHERS: [Subcommand; 6] = [
    Subcommand {
        name: "show",
        about: "Prints the message in a datagram, or its first fault",
        example: "Example: coap show 40017d34bb74656d7065726174757265",
        arguments: &[HEX],
    },
    Subcommand {
        name: "dump",
        about: "Prints the messages in the datagrams that standard input has in hex, one a line, behind the line's \
            number, or those of a capture",
        example: "Example: echo 40010001 | coap dump",
        arguments: &[READ_PCAP, READ_CHART],
    },
    Subcommand {
        name: "answer",
        about: "Prints what a server that holds BODY at PATH replies to a datagram",
        example: "Example: coap answer temperature 22.3 40017d34bb74656d7065726174757265",
        arguments: &[PATH, HELD_BODY, HEX],
    },
    Subcommand {
        name: "pair",
        about: "Puts BODY at PATH and gets it back, between a client and a server of this program over UDP",
        example: "Example: coap pair lamp on",
        arguments: &[PATH, PAIR_BODY, PAIR_WORD, LIMIT, REMEMBER],
    },
    Subcommand {
        name: "serve",
        about: "Serves the resource temperature, and what --hold names, until COUNT datagrams came",
        example: "Example: coap serve 5683 forever --hold lamp=off",
        arguments: &[
            OWN_PORT,
            COUNT,
            ADDRESS,
            HOLD,
            DELAY,
            PLAIN,
            TRACE,
            CHANGES,
            CHANGES_IN_JSON,
            SCRIPT,
            PCAP,
            JOURNAL,
            RENEW,
            OWN_WORD,
            LIMIT,
            REMEMBER,
        ],
    },
    Subcommand {
        name: "sim",
        about: "Runs a script over a client and a server, and prints what comes of it",
        example: "Example: coap sim examples/get.sim --chart",
        arguments: &[
            FILE, STORE, PLAIN, REMEMBER, CHART, CLIENT_END, SERVER_END, PCAP,
        ],
    },
];

/// The subcommands that ask a server for a body or send it one, in the order in which help lists them.
pub(crate) static ASKING: [Subcommand; 3] = [
    Subcommand {
        name: "get",
        about: "Prints what a server holds at PATH",
        example: "Example: coap get 5683 temperature",
        arguments: &[
            SERVER_PORT,
            SERVER_PATH,
            ACCEPT,
            ETAG,
            EVERY,
            READINGS,
            HOST,
            SIZE,
            TRACE,
            JSON,
            PCAP,
            GIVE_UP,
            DRAWN_WORD,
            LIMIT,
            REMEMBER,
        ],
    },
    Subcommand {
        name: "put",
        about: "Puts BODY at PATH at a server, and prints what came of it",
        example: "Example: coap put 5683 lamp on",
        arguments: &[
            SERVER_PORT,
            SERVER_PATH,
            SENT_BODY,
            BODY_FILE,
            FORMAT,
            IF_MATCH,
            IF_NONE_MATCH,
            HOST,
            SIZE,
            TRACE,
            JSON,
            PCAP,
            GIVE_UP,
            DRAWN_WORD,
            LIMIT,
            REMEMBER,
        ],
    },
    Subcommand {
        name: "post",
        about: "Has a server process BODY at PATH, and prints what came of it",
        example: "Example: coap post 5683 temperature !",
        arguments: &[
            SERVER_PORT,
            SERVER_PATH,
            SENT_BODY,
            BODY_FILE,
            FORMAT,
            IF_MATCH,
            IF_NONE_MATCH,
            HOST,
            SIZE,
            TRACE,
            JSON,
            PCAP,
            GIVE_UP,
            DRAWN_WORD,
            LIMIT,
            REMEMBER,
        ],
    },
];

/// The subcommands that ask something else of a server, in the order in which help lists them behind all others.
pub(crate) static ASKING_MORE: [Subcommand; 4] = [
    Subcommand {
        name: "delete",
        about: "Deletes what a server holds at PATH, and prints what came of it",
        example: "Example: coap delete 5683 lamp",
        arguments: &[
            SERVER_PORT,
            SERVER_PATH,
            IF_MATCH,
            IF_NONE_MATCH,
            HOST,
            SIZE,
            TRACE,
            JSON,
            PCAP,
            GIVE_UP,
            DRAWN_WORD,
            LIMIT,
            REMEMBER,
        ],
    },
    Subcommand {
        name: "observe",
        about: "Prints what a server holds at PATH, each time that it changes",
        example: "Example: coap observe 5683 temperature --count 2",
        arguments: &[
            SERVER_PORT,
            SERVER_PATH,
            TIMES,
            SECONDS,
            AGAIN,
            IN_HEX,
            HOST,
            SIZE,
            TRACE,
            JSON,
            PCAP,
            GIVE_UP_OBSERVING,
            DRAWN_WORD,
            LIMIT,
            REMEMBER,
        ],
    },
    Subcommand {
        name: "discover",
        about: "Prints the links that a server has at /.well-known/core, one a line",
        example: "Example: coap discover coap://127.0.0.1",
        arguments: &[
            SERVER_ALONE,
            HOST,
            SIZE,
            TRACE,
            JSON,
            PCAP,
            GIVE_UP,
            DRAWN_WORD,
            LIMIT,
            REMEMBER,
        ],
    },
    Subcommand {
        name: "ping",
        about: "Asks a server whether it is there, and prints how long its answer took",
        example: "Example: coap ping coap://127.0.0.1 --count 3",
        arguments: &[
            SERVER_ALONE,
            PINGS,
            HOST,
            TRACE,
            JSON,
            PCAP,
            GIVE_UP_PINGING,
        ],
    },
];
