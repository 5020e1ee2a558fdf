//! A server that is replayed, and notes what it takes from then on.
ghost use Rattle.std.specs.Prelude.{◌≡◌, ◌<◌, ◌^◌, ◌+◌, [], Some, List, length, IfErr, IfOk};
ghost use Rattle.coap_layer.specs.Trace.{Packet};
ghost use Rattle.coap_server.specs.Object.Shown.{state_of};
ghost use Rattle.coap_journal.specs.Frames.{frames};
ghost use Rattle.coap_journal.specs.Records.{Record};
ghost use Rattle.coap_replay.specs.Doing.{bodies};
ghost use Rattle.coap_replay.specs.Refusing.{IsOfOther, IsUnreplayed, StopsAt};
ghost use Rattle.coap_replay.specs.Replaying.{Replays, last_life, latest_moment};
ghost use Rattle.coap_replay.specs.declared.replay.ReplayError.TheVariants.{OtherServer, Unreadable};

use crate::noted::Noted;
use crate::notes::Notes;
use crate::opening::Opened;
use coap_replay::{ReplayError, Replayed, replay_frames};
use coap_resource::Store;
use coap_server::Server;
use std::alloc::Allocator;
use std::hash::BuildHasher;

// Does again what the frames hold.
fn replay_whole<S: Store<A>, A: Allocator + Copy, H: BuildHasher>(
    server: &mut Server<S, A, H>,
    alloc: A,
    opened: &Opened<'_>,
) -> Result<Replayed, ReplayError>
    requires room { opened.now.place + length opened.now.further.now < 2 ^ 63 }
    ensures records { IfOk result (λ done. (records : List Record) × (out : List Packet)
        × (opened.now.further.now ≡ frames opened.now.place (bodies records))
        × Replays (state_of S.content server.old) records out (state_of S.content server.new)
        × (done.life ≡ last_life opened.now.first records)
        × (done.latest.0 ≡ latest_moment opened.now.first.moment.0 records)) }
    ensures other { IfErr result (λ why. why ≡ OtherServer
        → StopsAt IsOfOther opened.now.place (state_of S.content server.old) opened.now.further.now) }
    ensures unread { IfErr result (λ why. why ≡ Unreadable
        → IsUnreplayed opened.now.place (state_of S.content server.old) opened.now.further.now) }
{
    let (done, rest) = replay_frames(server, alloc, opened.place, opened.further, opened.first)?;
    if rest.is_empty() {
        Ok(done)
    } else {
        Err(ReplayError::Unreadable)
    }
}

/// The server of a journal that was opened, with notes of what it takes from now on. The server that is
/// handed in is the one that began so, and to which nothing has happened.
pub fn replay<S: Store<A>, A: Allocator + Copy, H: BuildHasher + Drop>(
    alloc: A,
    server: Server<S, A, H>,
    opened: &Opened<'_>,
) -> Result<(Noted<S, A, H>, Replayed), ReplayError>
    requires room { opened.now.place + length opened.now.further.now < 2 ^ 63 }
    // The server that is handed out has done the records of the frames that were opened, and the life and the
    // moment that are told are their last.
    ensures records { IfOk result (λ p. (records : List Record) × (out : List Packet)
        × (opened.now.further.now ≡ frames opened.now.place (bodies records))
        × Replays (state_of S.content server) records out (state_of S.content p.0.server)
        × (p.1.life ≡ last_life opened.now.first records)
        × (p.1.latest.0 ≡ latest_moment opened.now.first.moment.0 records)) }
    // A server that was replayed keeps notes, with no input, after the latest moment of the journal.
    ensures notes { IfOk result (λ p. p.0.notes ≡ Some (record { moment = p.1.latest.0; taken = 0; inputs = [] })) }
    // The journal of another server is refused only where a turn follows before which more datagrams were taken
    // than the server has.
    ensures other { IfErr result (λ why. why ≡ OtherServer
        → StopsAt IsOfOther opened.now.place (state_of S.content server) opened.now.further.now) }
    // A journal is unreadable only where a frame follows that the server can't read, or not all of it is whole frames.
    ensures unreadable { IfErr result (λ why. why ≡ Unreadable
        → IsUnreplayed opened.now.place (state_of S.content server) opened.now.further.now) }
{
    let mut server = server;
    match replay_whole(&mut server, alloc, opened) {
        Ok(done) => {
            let notes = Some(Notes::new(alloc, done.latest));
            Ok((Noted { server, notes }, done))
        }
        Err(why) => Err(why),
    }
}
