//! The machine on which a server goes on.
ghost use Rattle.std.specs.Prelude.{◌≡◌, ℕ, List, Some, IfNone, IfOk, IfSome};
ghost use Rattle.coap_kept.specs.Machines.{IsMachineOf, NamesNone, machine_in};
ghost use Rattle.coap_kept.specs.declared.machine.Machine.{Machine as MachineSpec};

use coap_journal::Boot;
use coap_journal_file::{boot_in, uptime_in};
use std::io::Read;
use std::random::RandomSource;
use std::rt::Files;
use std::{fs, io};

// Where Linux names its boot, and says for how long it has been up, suspended or not.
const BOOT_NAME: &str = "/proc/sys/kernel/random/boot_id";

const UPTIME: &str = "/proc/uptime";

/// A boot of a machine, and how many milliseconds it has been up.
#[derive(Clone, Copy, Debug, PartialEq, Eq)]
pub struct Machine {
    /// The boot.
    pub boot: Boot,
    /// The milliseconds.
    pub uptime: u64,
}

/// What says which machine it is, as Linux does.
pub trait Host {
    /// Which texts it may say: the name of its boot, and for how long it has been up.
    ghost says: { Self → List ℕ → List ℕ → Type 0 };

    /// That it may say nothing.
    ghost lacks: { Self → Type 0 };

    /// Which numbers it may draw.
    ghost draws: { Self → ℕ → Type 0 };

    /// The name of its boot, and for how long it has been up; None where it doesn't say both.
    fn texts(&self) -> Option<(Vec<u8>, Vec<u8>)>
        // What a host says is some texts that it may say.
        ensures said { IfSome result (λ texts. says self.now texts.0.items texts.1.items) }
        // A host says nothing only where it may.
        ensures lacks { IfNone result (lacks self.now) };

    /// A random number.
    fn draw(&self) -> io::Result<u64>
        // A number that a host draws is one that it may draw.
        ensures { IfOk result (draws self.now) };
}

// What is in a file of the system.
fn bytes_of<R: AllocGlobal + Files>(rt: &R, name: &str) -> io::Result<Vec<u8>> {
    let mut file = fs::open(rt, name)?;
    let mut bytes = Vec::new(rt.alloc());
    file.read_to_end(&mut bytes)?;
    Ok(bytes)
}

// The name of the boot of a system, and for how long it has been up.
fn texts_of<R: AllocGlobal + Files>(rt: &R) -> io::Result<(Vec<u8>, Vec<u8>)> {
    let name = bytes_of(rt, BOOT_NAME)?;
    let uptime = bytes_of(rt, UPTIME)?;
    Ok((name, uptime))
}

/// Nothing is known of what a system says and draws.
impl<R: AllocGlobal + Files + RandomSource> Host for R {
    ghost use Rattle.std.specs.Prelude.{⊤};

    ghost says = { λ _ _ _. ⊤ };

    ghost lacks = { λ _. ⊤ };

    ghost draws = { λ _ _. ⊤ };

    fn texts(&self) -> Option<(Vec<u8>, Vec<u8>)> {
        texts_of(self).ok()
    }

    fn draw(&self) -> io::Result<u64> {
        let mut bytes = [0; size_of::<u64>()];
        self.fill_bytes(&mut bytes)?;
        Ok(u64::from_le_bytes(bytes))
    }
}

// The machine that these texts name: its boot, and how long it has been up.
fn machine_in(name: &[u8], uptime: &[u8]) -> Option<Machine>
    ensures { result ≡ machine_in name.now uptime.now }
{
    match (boot_in(name), uptime_in(uptime)) {
        (Some(boot), Some(uptime)) => Some(Machine { boot, uptime }),
        _ => None,
    }
}

// The machine that a host names, where it does.
fn named_by<R: Host>(rt: &R) -> Option<Machine>
    ensures named { IfSome result (λ machine. (name : List ℕ) × (uptime : List ℕ) × R.says rt.now name uptime
        × (machine_in name uptime ≡ Some machine)) }
    ensures none { IfNone result (NamesNone (R.says rt.now) (R.lacks rt.now)) }
{
    match rt.texts() {
        Some((name, uptime)) => machine_in(name.as_slice(), uptime.as_slice()),
        None => None,
    }
}

// A machine of which nothing is known: its boot is drawn.
fn drawn_by<R: Host>(rt: &R) -> io::Result<Machine>
    ensures { IfOk result (λ machine. (high : ℕ) × (low : ℕ) × R.draws rt.now high × R.draws rt.now low
        × (machine ≡ record { boot = record { high = high; low = low }; uptime = 0 })) }
{
    let high = rt.draw()?;
    let low = rt.draw()?;
    Ok(Machine {
        boot: Boot { high, low },
        uptime: 0,
    })
}

/// The machine as it is now. One that doesn't name its boot has another one each time that it is asked: so a server
/// counts no time that may not have passed.
pub fn machine_now<R: Host>(rt: &R) -> io::Result<Machine>
    // The machine is the one that its host names; where that names none it has a boot that is drawn, and no time has
    // passed in it.
    ensures { IfOk result (IsMachineOf (R.says rt.now) (R.lacks rt.now) (R.draws rt.now)) }
{
    match named_by(rt) {
        Some(machine) => Ok(machine),
        None => drawn_by(rt),
    }
}

/// What names the machine, each time that it is asked.
pub(crate) trait NamesMachine {
    /// What names it before, the machine, and what names it after.
    ghost names: { Self → MachineSpec → Self → Type 0 };

    /// The machine as it is now.
    fn ask(&mut self) -> io::Result<Machine>
        ensures { IfOk result (λ machine. names self.old machine self.new) };
}

/// The machine that a host names.
#[derive(Drop)]
pub(crate) struct HostMachine<'a, R> {
    /// The host.
    pub(crate) rt: &'a R,
}

impl<R: Host> NamesMachine for HostMachine<'_, R> {
    ghost use Rattle.std.specs.Prelude.{◌≡◌};
    ghost use Rattle.coap_kept.specs.Machines.{IsMachineOf};

    ghost names = { λ m machine n. (n ≡ m)
        × IsMachineOf (R.says m.rt.now) (R.lacks m.rt.now) (R.draws m.rt.now) machine };

    fn ask(&mut self) -> io::Result<Machine> {
        machine_now(self.rt)
    }
}
