//! The file of a journal is made whole: a torn frame is cut off, and where no server began in it one begins.
ghost use Rattle.std.specs.Prelude.{◌≡◌, ◌++◌, ℕ, List, IfErr, IfNone, IfOk, IfSome, OnOk, take};
ghost use Rattle.coap_journal_file.specs.Judging.{IsTornBeginning, IsWhole};
ghost use Rattle.coap_kept.specs.Machines.{first_life};
ghost use Rattle.coap_kept.specs.Refusing.{IsOtherwise, IsRefused};
ghost use Rattle.coap_kept.specs.Renewal.{first_bytes};
ghost use Rattle.coap_kept.specs.WholeFile.{IsAgreed, IsBegunAsSaid, IsMadeSafe, IsMadeWhole};
ghost use Rattle.coap_kept.specs.WholeFile.{completed, cut_off, with_setup};
ghost use Rattle.coap_kept.specs.declared.machine.Machine.{Machine as MachineSpec};

use crate::counts::{Counts, no_counts};
use crate::inputs::read_turns;
use crate::keep_error::KeepError;
use crate::keep_words::Keeping;
use crate::machine::{Machine, machine_now};
use crate::waking::life_at;
use coap_journal::{Beginning, Life, Whole};
use coap_journal_file::{
    Began, Differing, Judged, OpenJournal, StoredFile, begun_frame, differing_beginning, judge,
    open_journal, setup_frame, what_differs,
};
use coap_types::Moment;
use std::alloc::Global;
use std::fs::File;
use std::random::RandomSource;
use std::rt::Files;

// What a server began with that the words say otherwise. Where it is to be begun anew, it takes another setup then.
fn differing_in(began: &Began<'_>, keeping: &Keeping<'_>) -> Option<Differing>
    ensures none { IfNone result (IsAgreed keeping.now began.now) }
    ensures some { IfSome result (IsOtherwise keeping.now.renews keeping.now.wishes began.now) }
{
    if keeping.renews {
        differing_beginning(&began.beginning, &keeping.wishes)
    } else {
        what_differs(began, &keeping.wishes)
    }
}

// How much of a file is whole in which a server began as the words say; None where none began.
fn looked_at(bytes: &[u8], keeping: &Keeping<'_>) -> Result<Option<Whole>, KeepError>
    ensures begun { IfOk result (λ looked. IfSome looked (IsWhole bytes.now)) }
    ensures said { IfOk result (λ looked. IfSome looked (IsBegunAsSaid keeping.now bytes.now)) }
    ensures empty { IfOk result (λ looked. IfNone looked (IsTornBeginning bytes.now)) }
    ensures refused { IfErr result (IsRefused keeping.now bytes.now) }
{
    match judge(bytes) {
        Ok(Judged::Empty) => Ok(None),
        Ok(Judged::Begun(began)) => match differing_in(&began, keeping) {
            Some(differing) => Err(KeepError::Differs(differing)),
            None => Ok(Some(began.whole)),
        },
        Err(why) => Err(KeepError::File(why)),
    }
}

/// Adds bytes to a file, which are to be synced, and to those that are known to stand in it.
pub(crate) fn add<F: StoredFile>(
    journal: &mut OpenJournal<F>,
    bytes: &[u8],
) -> Result<(), KeepError>
    ensures written { OnOk result (F.writes journal.old.file bytes.now journal.new.file) }
    ensures known { OnOk result (journal.new.bytes.items ≡ journal.old.bytes.items ++ bytes.now) }
{
    journal.bytes.extend_from_slice(bytes)?;
    journal.file.append(bytes)?;
    Ok(())
}

// Cuts a file off at this place.
fn cut<F: StoredFile>(journal: &mut OpenJournal<F>, end: usize) -> Result<(), KeepError>
    ensures cut { OnOk result (F.cuts journal.old.file end journal.new.file) }
    ensures known { OnOk result (journal.new.bytes.items ≡ take end journal.old.bytes.items) }
{
    journal.file.cut(end as u64)?;
    journal.bytes.truncate(end);
    Ok(())
}

// Adds the frame of the inputs that a server takes first.
fn add_setup<F: StoredFile>(
    alloc: Global,
    journal: &mut OpenJournal<F>,
    setup: &[u8],
) -> Result<(), KeepError>
    ensures { OnOk result (journal.new.bytes.items ≡ with_setup journal.old.bytes.items setup.now) }
{
    let place = journal.bytes.len() as u64;
    let frame = setup_frame(alloc, place, setup)?;
    add(journal, frame.as_slice())
}

// Cuts a torn frame off, where there is one.
fn cut_off<F: StoredFile>(journal: &mut OpenJournal<F>, whole: Whole) -> Result<(), KeepError>
    ensures { OnOk result (journal.new.bytes.items ≡ cut_off whole journal.old.bytes.items) }
{
    if whole.torn > 0 {
        cut(journal, whole.end as usize)
    } else {
        Ok(())
    }
}

// Adds the frame of the inputs that a server takes first, where no frame follows the first one.
fn complete<F: StoredFile>(
    alloc: Global,
    journal: &mut OpenJournal<F>,
    whole: Whole,
    setup: &[u8],
) -> Result<(), KeepError>
    ensures { OnOk result (journal.new.bytes.items ≡ completed whole setup.now journal.old.bytes.items) }
{
    if whole.frames <= 1 {
        add_setup(alloc, journal, setup)
    } else {
        Ok(())
    }
}

/// The first two frames of a journal: how its server begins and its first life, and the inputs that it takes first.
pub(crate) fn first_frames(
    alloc: Global,
    beginning: Beginning,
    life: Life,
    setup: &[u8],
) -> Result<Vec<u8>, KeepError>
    ensures { IfOk result (λ v. v.items ≡ first_bytes beginning life setup.now) }
{
    let mut bytes = begun_frame(alloc, beginning, life)?;
    let place = bytes.len() as u64;
    let frame = setup_frame(alloc, place, setup)?;
    bytes.extend_from_slice(frame.as_slice())?;
    Ok(bytes)
}

// Begins a journal in a file in which none stands.
fn begin<F: StoredFile>(
    alloc: Global,
    journal: &mut OpenJournal<F>,
    keeping: &Keeping<'_>,
    machine: Machine,
) -> Result<(), KeepError>
    ensures { OnOk result (journal.new.bytes.items ≡ first_bytes keeping.now.drawn (first_life machine)
        keeping.now.setup.now) }
{
    let life = life_at(machine, Moment(0));
    let frames = first_frames(alloc, keeping.drawn, life, keeping.setup)?;
    cut(journal, 0)?;
    add(journal, frames.as_slice())
}

// Has a file be whole frames, of which the second one is there.
fn make_whole<F: StoredFile>(
    alloc: Global,
    journal: &mut OpenJournal<F>,
    keeping: &Keeping<'_>,
    machine: Machine,
) -> Result<Counts, KeepError>
    ensures { IfOk result (λ _. IsMadeWhole keeping.now machine journal.old.bytes.items journal.new.bytes.items) }
{
    let Some(whole) = looked_at(journal.bytes.as_slice(), keeping)? else {
        let torn = journal.bytes.len() as u64;
        begin(alloc, journal, keeping, machine)?;
        return Ok(no_counts(0, torn));
    };
    cut_off(journal, whole)?;
    let mut counts = no_counts(whole.frames, whole.torn);
    read_turns(alloc, journal.bytes.as_slice(), &mut counts)?;
    complete(alloc, journal, whole, keeping.setup)?;
    Ok(counts)
}

// Has the file and its name stay, whatever happens.
fn make_safe<R: AllocGlobal + Files<File = File>, F: StoredFile>(
    rt: &R,
    journal: &mut OpenJournal<F>,
    keeping: &Keeping<'_>,
    machine: Machine,
) -> Result<Counts, KeepError>
    ensures whole { IfOk result (λ _. IsMadeWhole keeping.now machine journal.old.bytes.items journal.new.bytes.items) }
    ensures safe { OnOk result (IsMadeSafe F.syncs F.settles keeping.now.name.now journal.new.file) }
{
    let counts = make_whole(rt.alloc(), journal, keeping, machine)?;
    journal.file.sync()?;
    journal.file.settle(rt, keeping.name)?;
    Ok(counts)
}

/// The file of a journal, opened, with whole frames alone, and how much of it there was.
pub(crate) fn ready<R: AllocGlobal + Files<File = File> + RandomSource>(
    rt: &R,
    keeping: &Keeping<'_>,
) -> Result<(OpenJournal, Counts), KeepError>
    ensures { IfOk result (λ opened. (machine : MachineSpec) × (found : List ℕ)
        × IsMadeWhole keeping.now machine found opened.0.bytes.items) }
{
    let mut journal = open_journal(rt, keeping.name)?;
    let machine = machine_now(rt)?;
    let counts = make_safe(rt, &mut journal, keeping, machine)?;
    Ok((journal, counts))
}
