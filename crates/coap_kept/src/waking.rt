//! A further life of a server.
ghost use Rattle.std.specs.Prelude.{◌≡◌, IfOk};
ghost use Rattle.coap_kept.specs.Kept.{IsAwake, IsWaitedFor};
ghost use Rattle.coap_kept.specs.Machines.{life_on};
ghost use Rattle.coap_kept.specs.Silence.{IsSilent, PassesIfAny};
ghost use Rattle.coap_kept.specs.WholeFile.{IsAddedSafely};
ghost use Rattle.coap_kept.specs.declared.machine.Machine.{Machine as MachineSpec};

use crate::keep_error::KeepError;
use crate::machine::{Machine, NamesMachine};
use crate::silence::be_silent;
use crate::whole_file::add;
use coap_journal::{Life, SILENCE_MS, Waking, go_on};
use coap_journal_file::{OpenJournal, StoredFile, woke_frame};
use coap_links::{Link, Timekeeper};
use coap_replay::Replayed;
use coap_types::Moment;
use std::alloc::Global;
use std::io::Write;

/// The life that begins now.
pub(crate) fn life_at(machine: Machine, moment: Moment) -> Life
    ensures { result ≡ life_on machine moment.0 }
{
    Life {
        boot: machine.boot,
        uptime: machine.uptime,
        moment,
    }
}

// The machine at the first moment of a server, that moment, and how long the server was silent before it: one that has
// to be silent is, and then asks for its machine again.
fn wait_for<N: NamesMachine, L: Link, T: Timekeeper, W: Write>(
    machines: &mut N,
    replayed: Replayed,
    link: &mut L,
    clock: &mut T,
    told: &mut W,
) -> Result<(Machine, Moment, u64), KeepError>
    ensures at { IfOk result (λ p. IsWaitedFor N.names machines.old replayed.life replayed.latest.0 p.2 p.1.0 p.0
        machines.new) }
    ensures silent { IfOk result (λ p. IsSilent L.receives link.old link.new) }
    ensures timed { IfOk result (λ p. PassesIfAny T.tells clock.old p.2 clock.new) }
{
    let machine = machines.ask()?;
    match go_on(replayed.life, replayed.latest, machine.boot, machine.uptime) {
        Waking::At(moment) => Ok((machine, moment, 0)),
        Waking::AfterSilence(moment) => {
            let _ = writeln!(told, "another boot: silent for {SILENCE_MS} ms");
            let silent = be_silent(link, clock, SILENCE_MS)?;
            let awake = machines.ask()?;
            Ok((awake, moment, silent))
        }
    }
}

/// Begins a further life of a server, after its silence where it needs one; answers its first moment, and how long it
/// was silent.
pub(crate) fn wake<N: NamesMachine, F: StoredFile, L: Link, T: Timekeeper, W: Write>(
    alloc: Global,
    machines: &mut N,
    journal: &mut OpenJournal<F>,
    replayed: Replayed,
    link: &mut L,
    clock: &mut T,
    told: &mut W,
) -> Result<(Moment, u64), KeepError>
    ensures awake { IfOk result (λ p. (machine : MachineSpec)
        × IsWaitedFor N.names machines.old replayed.life replayed.latest.0 p.1 p.0.0 machine machines.new
        × IsAwake journal.old.bytes.items machine p.0.0 journal.new.bytes.items) }
    ensures safe { IfOk result (λ _. IsAddedSafely F.writes F.syncs journal.old.file journal.old.bytes.items
        journal.new.bytes.items journal.new.file) }
    ensures silent { IfOk result (λ p. IsSilent L.receives link.old link.new) }
    ensures timed { IfOk result (λ p. PassesIfAny T.tells clock.old p.1 clock.new) }
{
    let (machine, first, silent) = wait_for(machines, replayed, link, clock, told)?;
    let life = life_at(machine, first);
    let place = journal.bytes.len() as u64;
    let frame = woke_frame(alloc, place, life)?;
    add(journal, frame.as_slice())?;
    journal.file.sync()?;
    Ok((first, silent))
}
