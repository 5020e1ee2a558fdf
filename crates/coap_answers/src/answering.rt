//! `answer`: one datagram is fed to a server, and what that gives out is printed.
ghost use Rattle.std.specs.Prelude.{◌≡◌, [], IfOk, OnOk};
ghost use Rattle.coap_resource.specs.Entries.{content_of};
ghost use Rattle.coap_server.specs.Object.Shown.{state_of};
ghost use Rattle.coap_layer.specs.Machine.State.{usual};
ghost use Rattle.coap_layer.specs.declared.setup.Setup.{Setup as SetupSpec};
ghost use Rattle.coap_resource.specs.Limits.{Limits};
ghost use Rattle.coap_server.specs.Led.{Led};
ghost use Rattle.coap_server.specs.Makes.{Fed, Makes};
ghost use Rattle.coap_answers.specs.Ends.{server_limits};
ghost use Rattle.coap_answers.specs.Answering.{PrintsAnswer, PrintsReply, PrintsSent};
ghost use Rattle.coap_status.specs.declared.status.Status.TheVariants.{Done as done};
ghost use Rattle.coap_answers.specs.Statuses.{IsCarriedOut};

use crate::ends::{fresh_server, hold, tell_refusal};
use coap_common::put_away;
use coap_layer::Setup;
use coap_resource::MapStore;
use coap_server::Server;
use coap_status::{Status, Stop};
use coap_types::{BodyLimit, DEFAULT_BODY_LIMIT, Endpoint, MAX_SZX, Moment, Path};
use std::alloc::{AllocError, Global};
use std::hash::{BuildHasherDefault, FoldHasher};
use std::io::Write;

// The word that the server begins with, and that it is handed with the datagram.
const WORD: u64 = 0;
// When the datagram comes.
const ARRIVAL: Moment = Moment(0);

/// Where the datagram comes from: where the client of a run is.
pub const ASKER: Endpoint = Endpoint {
    ip: [127, 0, 0, 1],
    port: 40_001,
};

const _: () = prove!(WORD == 0 && ARRIVAL.0 == 0);

/// Prints what a server with this one resource sends at once when it is handed the datagram.
pub fn answer<W: Write>(
    alloc: Global,
    path: &Path,
    body: &str,
    datagram: &[u8],
    out: &mut W,
) -> Result<Status, Stop>
    // A server that is asked for one answer begins by the word 0 and the usual limit, and is set to hold the body at
    // the path; where its store refuses that, the refusal is told. Else the usual client hands it the datagram at
    // moment 0, and each datagram that it then gives out is written in hex on a line, or a line that there is none.
    ensures printed { IfOk result (PrintsAnswer (server_limits DEFAULT_BODY_LIMIT) (usual WORD) path.now body.now
        (W.contents out.old) (W.contents out.new) ARRIVAL.0 ASKER WORD datagram.now) }
    // An answer that is printed ends with status 0 or 1.
    ensures status { IfOk result IsCarriedOut }
{
    let hasher = BuildHasherDefault::<FoldHasher>::new();
    let mut server = fresh_server(alloc, Setup::new(WORD), BodyLimit::default(), hasher);
    let ended = held_reply(alloc, &mut server, path, body, datagram, out);
    put_away(server);
    ended
}

// Has the server hold the resource, and prints what it replies.
fn held_reply<W: Write>(
    alloc: Global,
    server: &mut Server<MapStore, Global>,
    path: &Path,
    body: &str,
    datagram: &[u8],
    out: &mut W,
) -> Result<Status, Stop>
    ensures { (limits : Limits) (setup : SetupSpec) → Led limits MAX_SZX setup [] (state_of content_of server.old)
        → IfOk result (PrintsAnswer limits setup path.now body.now (W.contents out.old) (W.contents out.new) ARRIVAL.0
        ASKER WORD datagram.now) }
{
    match hold(server, path, body.as_bytes())? {
        None => reply(alloc, server, datagram, out),
        Some(refusal) => tell_refusal(refusal, out),
    }
}

// Hands the server the datagram.
fn hand(server: &mut Server<MapStore, Global>, datagram: &[u8]) -> Result<(), AllocError>
    ensures { OnOk result (Makes (state_of content_of server.old) (Fed ARRIVAL.0 ASKER datagram.now WORD)
        (state_of content_of server.new)) }
{
    server.feed(ARRIVAL, ASKER, datagram, WORD)
}

// Hands the server the datagram, and prints what it sends.
fn reply<W: Write>(
    alloc: Global,
    server: &mut Server<MapStore, Global>,
    datagram: &[u8],
    out: &mut W,
) -> Result<Status, Stop>
    ensures { IfOk result (λ status. (status ≡ done) × PrintsReply (W.contents out.old) (W.contents out.new) ARRIVAL.0
        ASKER WORD datagram.now (state_of content_of server.old) (state_of content_of server.new)) }
{
    hand(server, datagram)?;
    print_sent(alloc, server, out)?;
    Ok(Status::Done)
}

// Prints each datagram that is to be sent in hex, or that there is none.
fn print_sent<W: Write>(
    alloc: Global,
    server: &mut Server<MapStore, Global>,
    out: &mut W,
) -> Result<(), Stop>
    ensures { OnOk result (PrintsSent (W.contents out.old) (W.contents out.new) (state_of content_of server.old)
        (state_of content_of server.new)) }
{
    let mut is_silent = true;
    while let Some(datagram) = server.next_out() {
        let bytes = hex::encode(alloc, datagram.bytes())?;
        writeln!(out, "{bytes}")?;
        is_silent = false;
    }
    if is_silent {
        writeln!(out, "silence")?;
    }
    Ok(())
}
