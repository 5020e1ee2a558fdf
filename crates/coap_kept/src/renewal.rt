//! A server is begun anew, with what its paths held.
ghost use Rattle.std.specs.Prelude.{◌≡◌, ◌≤◌, ◌++◌, ℕ, List, IfOk, OnOk};
ghost use Rattle.coap_resource.specs.Entries.{content_of};
ghost use Rattle.coap_server.specs.Object.Shown.{state_of};
ghost use Rattle.coap_kept.specs.Holding.{HoldsTheSame};
ghost use Rattle.coap_kept.specs.Renewal.{IsBegunAnew, IsRenewedFrom, begun_anew};
ghost use Rattle.coap_kept.specs.Revival.{IsRevived};
ghost use Rattle.coap_kept.specs.Silence.{IsSilent, Passes};

use crate::held_paths::{held_paths, hold_the_same};
use crate::keep_error::KeepError;
use crate::keep_words::Keeping;
use crate::machine::machine_now;
use crate::put_away::put_away;
use crate::replacing::ReplacesJournals;
use crate::revival::{Revived, revive};
use crate::silence::be_silent;
use crate::waking::life_at;
use crate::whole_file::first_frames;
use coap_ends::Server;
use coap_journal::{Beginning, set_bytes};
use coap_journal_file::{FrameError, OpenJournal, setup_frame};
use coap_links::{Link, Timekeeper};
use coap_resource::MapStore;
use coap_types::transmission::{EXCHANGE_LIFETIME_MS, MAX_LATENCY_MS};
use coap_types::{MAX_BODY_LIMIT, Moment, Path};
use std::alloc::Global;
use std::fs::File;
use std::hash::BuildHasher;
use std::io::Write;
use std::random::RandomSource;
use std::rt::Files;

/// How long a server is silent that is begun anew, before it is: it forgets what it was asked and what it told. By then
/// no datagram of its former life arrives any more, nor a copy of a request that it served, and no client remembers a
/// Message ID of it (RFC 7252, section 4.8.2).
pub const RENEWAL_SILENCE_MS: u64 = 400_000;

const _: () = prove!(RENEWAL_SILENCE_MS == 400_000);

const _: () = prove!(EXCHANGE_LIFETIME_MS + MAX_LATENCY_MS < RENEWAL_SILENCE_MS);

/// A server that was begun anew.
#[derive(Drop)]
pub(crate) struct Renewed<H: BuildHasher + Drop> {
    /// The server, as it was made of its new journal.
    pub(crate) revived: Revived<H>,
    /// How long it was silent before.
    pub(crate) silent: u64,
}

// Adds the frame of what a server holds at a path, as a body that its own side sets.
fn add_held<H: BuildHasher + Drop>(
    alloc: Global,
    bytes: &mut Vec<u8>,
    server: &Server<MapStore, Global, H>,
    path: &Path,
) -> Result<(), KeepError>
    ensures { OnOk result ((more : List ℕ) × (bytes.new.items ≡ bytes.old.items ++ more)) }
{
    let Some(held) = server.get(path) else {
        return Err(KeepError::Unheld);
    };
    let body = held.body.as_slice();
    if body.len() > MAX_BODY_LIMIT {
        return Err(KeepError::Frame(FrameError::NoRoom));
    }
    let input = set_bytes(alloc, Moment(0), path, held.format, body)?;
    let place = bytes.len() as u64;
    let frame = setup_frame(alloc, place, input.as_slice())?;
    bytes.extend_from_slice(frame.as_slice())?;
    Ok(())
}

// .. and so at each of these paths.
fn add_each<H: BuildHasher + Drop>(
    alloc: Global,
    bytes: &mut Vec<u8>,
    server: &Server<MapStore, Global, H>,
    paths: &[Path],
) -> Result<(), KeepError>
    ensures { OnOk result ((more : List ℕ) × (bytes.new.items ≡ bytes.old.items ++ more)) }
{
    for path in paths {
        add_held(alloc, bytes, server, path)?;
    }
    Ok(())
}

// The journal of a server that begins anew, with what this one holds at these paths.
fn renewed_bytes<R: AllocGlobal + Files + RandomSource, H: BuildHasher + Drop>(
    rt: &R,
    keeping: &Keeping<'_>,
    was: Beginning,
    server: &Server<MapStore, Global, H>,
    paths: &[Path],
) -> Result<Vec<u8>, KeepError>
    ensures { IfOk result (λ v. IsBegunAnew (begun_anew keeping.now.drawn was) keeping.now.setup.now v.items) }
{
    let beginning = Beginning {
        configuration: was.configuration,
        seed: keeping.drawn.seed,
        base: keeping.drawn.base,
    };
    let life = life_at(machine_now(rt)?, Moment(0));
    let mut bytes = first_frames(rt.alloc(), beginning, life, keeping.setup)?;
    add_each(rt.alloc(), &mut bytes, server, paths)?;
    Ok(bytes)
}

// Has the journal be these bytes, where the server that was made of them holds what the other one does.
fn put_in_place<R: AllocGlobal + ReplacesJournals, H: BuildHasher + Drop>(
    rt: &R,
    name: &str,
    journal: &mut OpenJournal,
    bytes: Vec<u8>,
    old: &Server<MapStore, Global, H>,
    new: &Server<MapStore, Global, H>,
    paths: &[Path],
) -> Result<(), KeepError>
    ensures same { OnOk result (HoldsTheSame (state_of content_of old.now) (state_of content_of new.now)) }
    ensures bytes { OnOk result (journal.new.bytes.items ≡ bytes.items) }
    ensures replaced { OnOk result (R.replaces rt.now name.now bytes.items) }
{
    if !hold_the_same(old, new, paths) {
        return Err(KeepError::Unheld);
    }
    let beside = format!(in rt.alloc(); "{name}.new")?;
    let file = rt.replace(name, beside.as_str(), bytes.as_slice())?;
    *journal = OpenJournal { file, bytes };
    Ok(())
}

// Begins a server anew, which holds what this one does.
fn renew_from<R: AllocGlobal + Files<File = File> + RandomSource, H: BuildHasher + Drop>(
    rt: &R,
    journal: &mut OpenJournal,
    keeping: &Keeping<'_>,
    was: Beginning,
    old: &Server<MapStore, Global, H>,
    hasher: H,
) -> Result<Revived<H>, KeepError>
    ensures { IfOk result (λ new. IsRenewedFrom keeping.now was (state_of content_of old.now) journal.new.bytes.items
        new.beginning new.replayed (state_of content_of new.server)) }
{
    let alloc = rt.alloc();
    let paths = held_paths(alloc, journal.bytes.as_slice(), old)?;
    let bytes = renewed_bytes(rt, keeping, was, old, paths.as_slice())?;
    let new = revive(alloc, bytes.as_slice(), &keeping.wishes, hasher)?;
    match put_in_place(
        rt,
        keeping.name,
        journal,
        bytes,
        old,
        &new.server,
        paths.as_slice(),
    ) {
        Ok(()) => Ok(new),
        Err(why) => {
            put_away(new);
            Err(why)
        }
    }
}

/// Is silent, and then begins a server anew, which holds what this one does; its journal takes the place of the other.
pub(crate) fn renew<R, L, T, W, H>(
    rt: &R,
    journal: &mut OpenJournal,
    keeping: &Keeping<'_>,
    was: Beginning,
    old: &Server<MapStore, Global, H>,
    link: &mut L,
    clock: &mut T,
    told: &mut W,
    hasher: H,
) -> Result<Renewed<H>, KeepError>
where
    R: AllocGlobal + Files<File = File> + RandomSource,
    L: Link,
    T: Timekeeper,
    W: Write,
    H: BuildHasher + Drop,
    ensures from { IfOk result (λ new. IsRenewedFrom keeping.now was (state_of content_of old.now)
        journal.new.bytes.items new.revived.beginning new.revived.replayed (state_of content_of new.revived.server)) }
    ensures silent { IfOk result (λ new. IsSilent L.receives link.old link.new) }
    ensures long { IfOk result (λ new. RENEWAL_SILENCE_MS ≤ new.silent) }
    ensures timed { IfOk result (λ new. Passes T.tells clock.old new.silent clock.new) }
{
    let name = keeping.name;
    let _ = writeln!(
        told,
        "{name}: silent for {RENEWAL_SILENCE_MS} ms, then begun anew"
    );
    let silent = be_silent(link, clock, RENEWAL_SILENCE_MS)?;
    let revived = renew_from(rt, journal, keeping, was, old, hasher)?;
    Ok(Renewed { revived, silent })
}
