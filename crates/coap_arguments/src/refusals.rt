//! Which value of an argument is wrong.
ghost use Rattle.std.specs.Prelude.{◌≡◌};
ghost use Rattle.coap_arguments.specs.Numbers.{argument_of};
ghost use Rattle.coap_arguments.specs.Asking.{tags_argument_of};
ghost use Rattle.coap_arguments.specs.Addresses.{address_argument_of};
ghost use Rattle.coap_arguments.specs.Serving.{setting_argument_of};

use thiserror::Error;

/// Which argument is no number in its range.
#[derive(Clone, Copy, Debug, PartialEq, Eq, Error)]
pub enum NumberRefusal {
    /// A UDP port.
    #[error("PORT is no number from 0 to 65535")]
    Port,
    /// A number of datagrams.
    #[error("COUNT is neither forever nor a number from 0 to 18446744073709551615")]
    Count,
    /// The longest body.
    #[error("--limit is no number from 1 to 1048576")]
    Limit,
    /// How many messages an end remembers.
    #[error("--remember is no number from 1 to 1048576")]
    Remember,
    /// The format of a body.
    #[error("--format is neither a number from 0 to 65535 nor the name of a format, as text/plain")]
    Format,
    /// The format that is wanted.
    #[error("--accept is neither a number from 0 to 65535 nor the name of a format, as text/plain")]
    Accept,
    /// After how many values an observation ends.
    #[error("--count is no number from 0 to 18446744073709551615")]
    Times,
    /// After how many seconds an observation ends.
    #[error("--seconds is no number from 0 to 18446744073709551615")]
    Seconds,
    /// After how many seconds a client gives up.
    #[error("--give-up is no number from 0 to 18446744073709551615")]
    GiveUp,
    /// After how many seconds a body is asked for again.
    #[error("--every is no number from 1 to 18446744073709551615")]
    Every,
    /// After how many seconds without a value an observation is begun anew.
    #[error("--again is no number from 1 to 18446744073709551615")]
    Again,
    /// The UDP port of a server that is asked.
    #[error("PORT is no number from 0 to 65535")]
    ServerPort,
}

impl NumberRefusal {
    // The argument, by its name in clap.
    pub(crate) fn name(self) -> &'static str
        ensures { result.now ≡ argument_of self }
    {
        match self {
            NumberRefusal::Port => "PORT",
            NumberRefusal::Count => "COUNT",
            NumberRefusal::Limit => "limit",
            NumberRefusal::Remember => "remember",
            NumberRefusal::Format => "format",
            NumberRefusal::Accept => "accept",
            NumberRefusal::Times => "count",
            NumberRefusal::Seconds => "seconds",
            NumberRefusal::GiveUp => "give-up",
            NumberRefusal::Every => "every",
            NumberRefusal::Again => "again",
            NumberRefusal::ServerPort => "PORT|URI",
        }
    }
}

/// Which argument has a value that is no entity-tag, or more than four of them.
#[derive(Clone, Copy, Debug, PartialEq, Eq, Error)]
pub enum TagsRefusal {
    /// The representations that the client has.
    #[error("--etag is not the hex of 1 to 8 bytes, or is given more than 4 times")]
    Etag,
    /// The representations of which one has to be there.
    #[error("--if-match is not the hex of 1 to 8 bytes, or is given more than 4 times")]
    IfMatch,
}

impl TagsRefusal {
    // The argument, by its name in clap.
    pub(crate) fn name(self) -> &'static str
        ensures { result.now ≡ tags_argument_of self }
    {
        match self {
            TagsRefusal::Etag => "etag",
            TagsRefusal::IfMatch => "if-match",
        }
    }
}

/// Which argument is no address.
#[derive(Clone, Copy, Debug, PartialEq, Eq, Error)]
pub enum AddressRefusal {
    /// That of the server that is asked.
    #[error("--host is no IP address, as 192.0.2.1 or ::1, and no name of a host")]
    Host,
    /// The one that is served at.
    #[error("--address is no IP address, as 192.0.2.1 or ::; a name is none")]
    Address,
}

impl AddressRefusal {
    // The argument, by its name in clap.
    pub(crate) fn name(self) -> &'static str
        ensures { result.now ≡ address_argument_of self }
    {
        match self {
            AddressRefusal::Host => "host",
            AddressRefusal::Address => "address",
        }
    }
}

/// Which argument has a value that says nothing of how a server is set up, or too many of them.
#[derive(Clone, Copy, Debug, PartialEq, Eq, Error)]
pub enum SettingRefusal {
    /// What the server holds.
    #[error("--hold is not PATH=BODY, where PATH is a path")]
    Hold,
    /// How long requests wait.
    #[error("--delay is not PATH=MS, where PATH is a path and MS a number from 0 to 18446744073709551615, or is given more than 16 times")]
    Delay,
}

impl SettingRefusal {
    // The argument, by its name in clap.
    pub(crate) fn name(self) -> &'static str
        ensures { result.now ≡ setting_argument_of self }
    {
        match self {
            SettingRefusal::Hold => "hold",
            SettingRefusal::Delay => "delay",
        }
    }
}

/// Why the ends of a run can't stand where the words say.
#[derive(Clone, Copy, Debug, PartialEq, Eq, Error)]
pub enum EndsRefusal {
    /// That of the client is no address with a port.
    #[error("--client is no IPv4 address with a port, as 127.0.0.1:40001; a name is none")]
    Client,
    /// That of the server is none.
    #[error("--server is no IPv4 address with a port, as 127.0.0.1:5683; a name is none")]
    Server,
    /// Both are one.
    #[error("--client and --server are one; left out, these are 127.0.0.1:40001 and 127.0.0.1:5683")]
    Same,
}

/// Which options don't go together.
#[derive(Clone, Copy, Debug, PartialEq, Eq, Error)]
pub enum TogetherRefusal {
    /// A number of readings, where there is one reading.
    #[error("error: unexpected argument '--count' found\n\n  tip: get takes --count where it takes --every")]
    Count,
    /// Readings again and again, and a body that is there already.
    #[error("--etag does not go with --every")]
    Etag,
    /// Values in hex, and objects of JSON.
    #[error("--hex does not go with --json, which says in hex what is no text")]
    Hex,
    /// Objects of JSON, where no change is told of.
    #[error("error: unexpected argument '--json' found\n\n  tip: serve takes --json where it takes --changes")]
    Json,
    /// Objects of JSON, and words beside them.
    #[error("--trace does not go with --json: both go to standard error")]
    Trace,
    /// A chart of datagrams that have no address.
    #[error("error: unexpected argument '--chart' found\n\n  tip: dump takes --chart where it takes --pcap")]
    Chart,
    /// A server that is set up by a script, and one that goes on from a file.
    #[error("--script does not go with --journal: give --hold, --delay and --plain")]
    Script,
    /// A file that is begun anew, where there is none.
    #[error("error: unexpected argument '--renew' found\n\n  tip: serve takes --renew where it takes --journal")]
    Renew,
}

/// Why a URI says no resource that the program asks for (RFC 7252, sections 6.1 and 6.4).
#[derive(Clone, Copy, Debug, PartialEq, Eq, Error)]
pub enum UriRefusal {
    /// Its scheme is another one.
    #[error("the URI is none of coap: it begins with another word than coap://")]
    Scheme,
    /// It has a fragment.
    #[error("the URI has a fragment, which no request has: %23 is a # in a path")]
    Fragment,
    /// It has a query.
    #[error("the URI has a query, which is not sent: %3F is a ? in a path")]
    Query,
    /// It has a user.
    #[error("the URI has a user before its host, which a URI of coap has not")]
    User,
    /// Its host has a bracket and is no address of IPv6 in brackets.
    #[error("the brackets of the URI hold no IPv6 address, as [::1] and [fe80::1%2] do")]
    Six,
    /// Its host is no address of IPv4, and no name.
    #[error("the host of the URI is no IPv4 address, as 192.0.2.1, no IPv6 address in brackets, and no name of a host")]
    Host,
    /// Its port is none.
    #[error("the port of the URI is no number from 0 to 65535")]
    Port,
    /// An escape has no two digits.
    #[error("the URI has a percent sign without two hexadecimal digits")]
    Percent,
    /// A segment of its path is too long.
    #[error("the path of the URI has a segment of over 255 bytes")]
    SegmentTooLong,
    /// Its path has too many segments.
    #[error("the path of the URI has over 16 segments")]
    TooManySegments,
}

/// What stands beside a URI that says it itself.
#[derive(Clone, Copy, Debug, PartialEq, Eq, Error)]
pub enum BesideRefusal {
    /// A word too many.
    #[error("a word too many: a URI stands in the place of PORT and PATH")]
    Word,
    /// The server's address.
    #[error("--host does not go with a URI, which says the host")]
    Host,
    /// A path, where the server itself is asked.
    #[error("the URI has a path, and the server itself is asked, as coap://192.0.2.1")]
    Path,
}
