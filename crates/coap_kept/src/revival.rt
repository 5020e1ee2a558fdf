//! A server is made of the bytes of its journal.
ghost use Rattle.std.specs.Prelude.{◌≡◌, ◌≤◌, ◌<◌, ◌+◌, ◌-◌, ◌^◌, ◌++◌, [], IfErr, IfNone, IfOk, IfSome, length};
ghost use Rattle.coap_resource.specs.Base.{IsBase};
ghost use Rattle.coap_resource.specs.Entries.{content_of};
ghost use Rattle.coap_server.specs.Led.{Led};
ghost use Rattle.coap_server.specs.Object.Shown.{state_of};
ghost use Rattle.coap_journal.specs.Frames.{frame};
ghost use Rattle.coap_journal.specs.Records.{Begun, record_bytes};
ghost use Rattle.coap_journal_file.specs.Judging.{IsUnbegun};
ghost use Rattle.coap_kept.specs.Refusing.{CanBegin, IsNotDone, IsUnrevived};
ghost use Rattle.coap_kept.specs.Revival.{IsReplayed, IsRevived, limits_of, setup_of};

use crate::put_away::put_away;
use coap_ends::Server;
use coap_journal::{BeginError, Beginning, Life, read_begun, read_frame};
use coap_journal_file::{Differing, Wishes, differing_beginning};
use coap_layer::Setup;
use coap_replay::{ReplayError, Replayed, replay_frames};
use coap_resource::{MapStore, Store, VersionBase};
use std::alloc::Global;
use std::hash::BuildHasher;
use thiserror::Error;

/// Why no server is made of a journal.
#[derive(Clone, Copy, Debug, PartialEq, Eq, Error)]
pub enum RevivalError {
    /// It doesn't begin as a journal does.
    #[error("{0}")]
    Unbegun(BeginError),
    /// Its server began with something that the words say otherwise.
    #[error("{0}")]
    Differs(Differing),
    /// It can't be replayed.
    #[error("{0}")]
    Unreplayed(ReplayError),
}

/// The server of a journal.
#[derive(Drop)]
pub struct Revived<H: BuildHasher + Drop> {
    /// The server, which was replayed.
    pub server: Server<MapStore, Global, H>,
    /// How it began.
    pub beginning: Beginning,
    /// Its last life and its latest moment.
    pub replayed: Replayed,
}

// The first frame of a journal: how its server began, and its first life; and what follows.
fn beginning_in(bytes: &[u8]) -> Result<(Beginning, Life, &[u8]), BeginError>
    ensures ok { IfOk result (λ p. bytes.now ≡ frame 0 (record_bytes (Begun p.0 p.1)) ++ p.2.now) }
    ensures err { IfErr result (IsUnbegun bytes.now) }
{
    let Some((body, rest)) = read_frame(0, bytes) else {
        return Err(BeginError::Unreadable);
    };
    match read_begun(body) {
        Ok((beginning, life)) => Ok((beginning, life, rest)),
        Err(why) => Err(why),
    }
}

// The version after which versions begin, where it is one.
fn base_of(base: u64) -> Option<VersionBase>
    ensures some { IfSome result (λ made. made ≡ base) }
    ensures none { IfNone result (IsBase base → ⊥) }
{
    VersionBase::new(base)
}

// A server that begins so; None where none can.
fn fresh_server<H: BuildHasher + Drop>(
    alloc: Global,
    beginning: &Beginning,
    hasher: H,
) -> Option<Server<MapStore, Global, H>>
    ensures some { IfSome result (λ server. Led (limits_of beginning.now) beginning.now.configuration.szx
        (setup_of beginning.now) [] (state_of content_of server)) }
    ensures none { IfNone result (CanBegin beginning.now → ⊥) }
{
    let configuration = beginning.configuration;
    let base = base_of(beginning.base)?;
    let store = MapStore::new_after(alloc, configuration.changes, configuration.limit, base)?;
    let setup = Setup {
        word: beginning.seed.word,
        remembered: configuration.remembered,
    };
    Some(Server::with_setup(alloc, store, configuration.szx, setup, hasher))
}

/// The server of a journal of these bytes, which is replayed; it began with what the words say.
pub fn revive<H: BuildHasher + Drop>(
    alloc: Global,
    bytes: &[u8],
    wishes: &Wishes<'_>,
    hasher: H,
) -> Result<Revived<H>, RevivalError>
    // The server that is made of a journal began as its first frame says, and then did all that its other frames hold.
    ensures revived { IfOk result (λ r. IsRevived bytes.now wishes.now r.beginning r.replayed
        (state_of content_of r.server)) }
    // No server is made of a journal only where none began, or none can begin so; where the words say otherwise how it
    // began; or where it can't do what the other frames hold, but for want of memory.
    ensures unrevived { IfErr result (IsUnrevived bytes.now wishes.now) }
{
    let (beginning, life, rest) = match beginning_in(bytes) {
        Ok(begun) => begun,
        Err(why) => return Err(RevivalError::Unbegun(why)),
    };
    if let Some(differing) = differing_beginning(&beginning, wishes) {
        return Err(RevivalError::Differs(differing));
    }
    let Some(server) = fresh_server(alloc, &beginning, hasher) else {
        return Err(RevivalError::Unbegun(BeginError::Unreadable));
    };
    match replay_all(alloc, server, bytes, rest, life) {
        Ok((server, replayed)) => Ok(Revived {
            server,
            beginning,
            replayed,
        }),
        Err(why) => Err(RevivalError::Unreplayed(why)),
    }
}

// Has a server do what all frames hold that follow the first one.
fn replay_all<H: BuildHasher + Drop>(
    alloc: Global,
    server: Server<MapStore, Global, H>,
    bytes: &[u8],
    rest: &[u8],
    life: Life,
) -> Result<(Server<MapStore, Global, H>, Replayed), ReplayError>
    requires rest { length rest.now ≤ length bytes.now }
    ensures ok { IfOk result (λ r. IsReplayed (length bytes.now - length rest.now) rest.now life
        (state_of content_of server) r.1 (state_of content_of r.0)) }
    ensures err { IfErr result (IsNotDone (length bytes.now - length rest.now) rest.now
        (state_of content_of server)) }
{
    let mut server = server;
    match replay_rest(alloc, &mut server, bytes.len() - rest.len(), rest, life) {
        Ok(replayed) => Ok((server, replayed)),
        Err(why) => {
            put_away(server);
            Err(why)
        }
    }
}

// Has a server do what the frames hold at this place, to the end of the file.
fn replay_rest<H: BuildHasher + Drop>(
    alloc: Global,
    server: &mut Server<MapStore, Global, H>,
    place: usize,
    rest: &[u8],
    life: Life,
) -> Result<Replayed, ReplayError>
    requires room { place + length rest.now < 2 ^ 63 }
    ensures ok { IfOk result (λ replayed. IsReplayed place rest.now life (state_of content_of server.old) replayed
        (state_of content_of server.new)) }
    ensures err { IfErr result (IsNotDone place rest.now (state_of content_of server.old)) }
{
    match replay_frames(server, alloc, place as u64, rest, life) {
        Ok((replayed, [])) => Ok(replayed),
        Ok(_) => Err(ReplayError::Unreadable),
        Err(why) => Err(why),
    }
}
