//! A server goes on from the file of its journal.
ghost use Rattle.std.specs.Prelude.{◌≡◌, IfOk};
ghost use Rattle.coap_resource.specs.Entries.{content_of};
ghost use Rattle.coap_server.specs.Object.Shown.{state_of};
ghost use Rattle.coap_journaled.specs.Journal.{shown};
ghost use Rattle.coap_kept.specs.Kept.{IsAwoken, IsKept, IsMade};
ghost use Rattle.coap_kept.specs.Silence.{AreTimed, IsSilent, PassesIfAny};

use crate::counts::{Counts, tell_counts};
use crate::disk_file::DiskFile;
use crate::draining::drain;
use crate::keep_error::KeepError;
use crate::keep_words::Keeping;
use crate::machine::HostMachine;
use crate::put_away::put_away;
use crate::renewal::{Renewed, renew};
use crate::revival::{Revived, revive};
use crate::waking::wake;
use crate::whole_file::ready;
use coap_ends::Server;
use coap_journal_file::OpenJournal;
use coap_journaled::Journaled;
use coap_links::{Link, Timekeeper};
use coap_resource::MapStore;
use coap_types::Moment;
use std::alloc::Global;
use std::fs::File;
use std::hash::BuildHasher;
use std::io::Write;
use std::random::RandomSource;
use std::rt::Files;

/// For how many milliseconds a server was silent before its life began.
#[derive(Clone, Copy, Debug, PartialEq, Eq)]
pub struct Silences {
    /// Before it was begun anew; 0 where it wasn't.
    pub renewal: u64,
    /// Since its machine has another boot; 0 where it has the same.
    pub boot: u64,
}

/// A server that goes on from its journal.
#[derive(Drop)]
pub struct KeptServer<H: BuildHasher + Drop, T: Timekeeper + Drop, W: Write + Drop> {
    /// The server and its journal.
    pub journaled: Journaled<Server<MapStore, Global, H>, DiskFile<File, T, W>, Global>,
    /// Its first moment.
    pub first: Moment,
    /// For how long it was silent.
    pub silent: Silences,
}

// A server and how long it was silent before it was made.
fn not_renewed<H: BuildHasher + Drop>(revived: Revived<H>) -> Renewed<H>
    ensures { result ≡ record { revived = revived; silent = 0 } }
{
    Renewed { revived, silent: 0 }
}

// The server of a journal, which is replayed, and begun anew where the words say so.
fn replayed_or_renewed<R, L, T, W, H>(
    rt: &R,
    journal: &mut OpenJournal,
    keeping: &Keeping<'_>,
    counts: Counts,
    link: &mut L,
    clock: &mut T,
    told: &mut W,
    hashers: (H, H),
) -> Result<Renewed<H>, KeepError>
where
    R: AllocGlobal + Files<File = File> + RandomSource,
    L: Link,
    T: Timekeeper,
    W: Write,
    H: BuildHasher + Drop,
    ensures made { IfOk result (λ m. IsMade keeping.now m.silent journal.old.bytes.items journal.new.bytes.items
        m.revived.replayed (state_of content_of m.revived.server)) }
    ensures silent { IfOk result (λ m. IsSilent L.receives link.old link.new) }
    ensures timed { IfOk result (λ m. PassesIfAny T.tells clock.old m.silent clock.new) }
{
    let (first, second) = hashers;
    let old = revive(rt.alloc(), journal.bytes.as_slice(), &keeping.wishes, first)?;
    tell_counts(keeping.name, counts, told);
    if !keeping.renews {
        return Ok(not_renewed(old));
    }
    let was = old.beginning;
    let new = renew(
        rt,
        journal,
        keeping,
        was,
        &old.server,
        link,
        clock,
        told,
        second,
    );
    put_away(old);
    new
}

// That server, in a further life.
fn alive<R, L, T, W, H>(
    rt: &R,
    journal: &mut OpenJournal,
    keeping: &Keeping<'_>,
    counts: Counts,
    link: &mut L,
    clock: &mut T,
    told: &mut W,
    hashers: (H, H),
) -> Result<(Server<MapStore, Global, H>, Moment, Silences), KeepError>
where
    R: AllocGlobal + Files<File = File> + RandomSource,
    L: Link,
    T: Timekeeper,
    W: Write,
    H: BuildHasher + Drop,
    ensures alive { IfOk result (λ a. IsAwoken keeping.now a.2 a.1.0 journal.old.bytes.items journal.new.bytes.items
        (state_of content_of a.0)) }
    ensures silent { IfOk result (λ a. IsSilent L.receives link.old link.new) }
    ensures timed { IfOk result (λ a. AreTimed T.tells clock.old a.2 clock.new) }
{
    let made = replayed_or_renewed(rt, journal, keeping, counts, link, clock, told, hashers)?;
    let Renewed { revived, silent } = made;
    let mut machines = HostMachine { rt };
    match wake(
        rt.alloc(),
        &mut machines,
        journal,
        revived.replayed,
        link,
        clock,
        told,
    ) {
        Ok((first, boot)) => {
            let silences = Silences {
                renewal: silent,
                boot,
            };
            Ok((revived.server, first, silences))
        }
        Err(why) => {
            put_away(revived);
            Err(why)
        }
    }
}

/// Opens the journal of a server for this program alone, has its server do again what stands in it, and begins a
/// further life; what waited when it ended is dropped. In a file in which none stands one is begun. A server that goes
/// on after another boot of its machine first drops what comes for `SILENCE_MS`. One that is to be begun anew first
/// drops what comes for `RENEWAL_SILENCE_MS`; then its journal takes the place of the one that was there. Both hashers
/// are of one kind.
pub fn keep<R, L, T, W, H>(
    rt: &R,
    keeping: &Keeping<'_>,
    link: &mut L,
    clock: &mut T,
    syncs: T,
    told: W,
    hashers: (H, H),
) -> Result<KeptServer<H, T, W>, KeepError>
where
    R: AllocGlobal + Files<File = File> + RandomSource,
    L: Link,
    T: Timekeeper + Drop,
    W: Write + Drop,
    H: BuildHasher + Drop,
    // A server that is kept is the one of its journal, which agrees with the words and to which a life was added; what
    // waited there was dropped, and counts as taken, and nothing waits.
    ensures kept { IfOk result (λ kept. IsKept keeping.now kept.silent kept.first.0
        (shown (state_of content_of) kept.journaled)) }
    // Until a server is kept nothing is sent, and what comes is dropped.
    ensures silent { IfOk result (λ kept. IsSilent L.receives link.old link.new) }
    // The silences of a server that is kept are those that passed by its clock: one before it was begun anew, and one
    // since its machine has another boot.
    ensures timed { IfOk result (λ kept. AreTimed T.tells clock.old kept.silent clock.new) }
{
    let mut told = told;
    let (journal, counts) = ready(rt, keeping)?;
    let mut journal = journal;
    let (server, first, silent) = alive(
        rt,
        &mut journal,
        keeping,
        counts,
        link,
        clock,
        &mut told,
        hashers,
    )?;
    let place = journal.bytes.len() as u64;
    let file = DiskFile::new(journal.file, syncs, told);
    let mut journaled = Journaled::new(rt.alloc(), server, file, place, first);
    drain(&mut journaled);
    Ok(KeptServer {
        journaled,
        first,
        silent,
    })
}
