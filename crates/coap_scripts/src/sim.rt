//! `sim`: a script is run, and what comes of it is printed.
ghost use Rattle.std.specs.Prelude.{◌≡◌, ◌≢◌, [], ℕ, List, Err, IfOk, IfSome, OnOk, map};
ghost use Rattle.std.specs.Io.KnownBytes.{Appends};
ghost use Rattle.coap_types.specs.declared.remembered.TheConstants.{DEFAULT_REMEMBERED as default_remembered};
ghost use Rattle.coap_record.specs.Events.{Event as EventSpec, usual_addresses};
ghost use Rattle.coap_run.specs.Run.Happening.{event_of};
ghost use Rattle.coap_run.specs.Run.Runs.{IsFirstWrong, IsRunOf};
ghost use Rattle.coap_run.specs.declared.running.RunRefusal.TheVariants.{NotLegal};
ghost use Rattle.coap_scripts.specs.Sims.{AreTooMany, IsSim, IsSimOf, IsUnset, bad_line_text, not_legal_text};
ghost use Rattle.coap_scripts.specs.Sims.{sim_config};
ghost use Rattle.coap_status.specs.declared.status.Status.TheVariants.{Done, Refused, Words};

use crate::capture::capture_run;
use crate::chart::draw_run;
use crate::run_lines::tell_run;
use crate::script::{ScriptRefusal, events_of};
use coap_arguments::StoreKind;
use coap_common::largest_szx;
use coap_ends::{MAX_PLAINS, PlainRefusal};
use coap_print::Printing;
use coap_resource::{ListStore, MAX_CHANGES_PER_WINDOW, MapStore};
use coap_run::{
    Addresses, CLIENT_END, Event, Record, RunRefusal, SERVER_END, WorldConfig, run_with,
};
use coap_status::{Status, Stop, stop_of};
use coap_types::{Path, Remembered};
use std::alloc::Allocator;
use std::fs;
use std::io::{Read, Write};
use std::rt::Files;

// The word that each end begins with.
const WORD: u64 = 0;

const _: () = prove!(WORD == 0);

/// Where the two ends stand if nothing else is said.
pub const USUAL_ENDS: Addresses = Addresses {
    client: CLIENT_END,
    server: SERVER_END,
};

// What the words take is what the server takes.
const _: () = prove!(coap_arguments::MAX_PLAINS == MAX_PLAINS);

/// Runs a script over a client and a server, which keeps its resources in a map and tells observers in
/// Confirmable messages, and prints what comes of it.
pub fn sim_to<A: Allocator + Copy, R: Read, W: Write>(
    alloc: A,
    script: &mut R,
    out: &mut W,
) -> Result<Status, Stop>
    // Some list of events runs to its end with status 0, between ends at the usual addresses, which remember the usual
    // number of messages, and without a plain path; one of them is not legal with status 1.
    ensures runs { IfOk result (λ status. (events : List EventSpec)
        × IsSim (sim_config usual_addresses default_remembered []) events status) }
    // Where it is known what a reader has, the events are those that the lines of this text say, and the first line
    // that says none is told by its number.
    ensures said { IfOk result (λ status. IfSome (R.remaining script.old) (λ text. IsSimOf (W.contents out.old)
        (W.contents out.new) usual_addresses default_remembered [] text status)) }
{
    let no_path: [Path<A>; 0] = [];
    sim_with(
        alloc,
        script,
        StoreKind::Map,
        &no_path,
        Remembered::default(),
        USUAL_ENDS,
        Printing::Lines,
        out,
    )
}

/// Runs a script as [`sim_to`] does, over ends at these addresses that remember so many messages, and a server with
/// such a store, which tells the observers of these paths in Non-confirmable messages where it may. With more than
/// `MAX_PLAINS` different ones, or one address for both ends, nothing is run: these are wrong words. What comes of it
/// is printed a line each, or drawn as a chart.
pub fn sim_with<A: Allocator + Copy, R: Read, W: Write>(
    alloc: A,
    script: &mut R,
    store: StoreKind,
    plains: &[Path<A>],
    remembered: Remembered,
    ends: Addresses,
    printing: Printing,
    out: &mut W,
) -> Result<Status, Stop>
    // Some list of events runs to its end with status 0, between ends at these addresses that remember so many
    // messages, and with these plain paths, over either store; one of them is not legal with status 1.
    ensures runs { IfOk result (λ status. (events : List EventSpec)
        × IsSim (sim_config ends remembered plains.now) events status) }
    // Of a script whose text is known, the events between ends at these addresses are those that its lines say, and the
    // first line that says none is told.
    ensures said { IfOk result (λ status. IfSome (R.remaining script.old) (λ text. IsSimOf (W.contents out.old)
        (W.contents out.new) ends remembered plains.now text status)) }
{
    let mut uncaptured = None;
    sim_captured(
        alloc,
        script,
        store,
        plains,
        remembered,
        ends,
        printing,
        &mut uncaptured,
        out,
    )
}

/// Runs a script as [`sim_with`] does. Where bytes are handed over, the datagrams of a run that came to its end are put
/// behind them, as a capture.
pub fn sim_captured<A: Allocator + Copy, R: Read, W: Write>(
    alloc: A,
    script: &mut R,
    store: StoreKind,
    plains: &[Path<A>],
    remembered: Remembered,
    ends: Addresses,
    printing: Printing,
    capture: &mut Option<Vec<u8, A>>,
    out: &mut W,
) -> Result<Status, Stop>
    // Whether a run is captured changes nothing of what it comes to: some list of events runs to its end with status 0,
    // or one of them is not legal with status 1.
    ensures runs { IfOk result (λ status. (events : List EventSpec)
        × IsSim (sim_config ends remembered plains.now) events status) }
    // Nor does it change which events those are: the ones that the lines of the text say, where that is known.
    ensures said { IfOk result (λ status. IfSome (R.remaining script.old) (λ text. IsSimOf (W.contents out.old)
        (W.contents out.new) ends remembered plains.now text status)) }
{
    let mut text = Vec::new(alloc);
    match script.read_to_end(&mut text) {
        Ok(_len) => sim_text(
            alloc,
            text.as_slice(),
            store,
            plains,
            remembered,
            ends,
            printing,
            capture,
            out,
        ),
        Err(error) => Err(stop_of(&error)),
    }
}

// Runs a script of this text.
fn sim_text<A: Allocator + Copy, W: Write>(
    alloc: A,
    text: &[u8],
    store: StoreKind,
    plains: &[Path<A>],
    remembered: Remembered,
    ends: Addresses,
    printing: Printing,
    capture: &mut Option<Vec<u8, A>>,
    out: &mut W,
) -> Result<Status, Stop>
    ensures runs { IfOk result (λ status. (events : List EventSpec)
        × IsSim (sim_config ends remembered plains.now) events status) }
    ensures said { IfOk result (IsSimOf (W.contents out.old) (W.contents out.new) ends remembered plains.now text.now) }
{
    match events_of(alloc, text) {
        Ok(events) => run_events(
            alloc,
            events.as_slice(),
            store,
            plains,
            remembered,
            ends,
            printing,
            capture,
            out,
        ),
        Err(refusal) => tell_bad_line(refusal, out),
    }
}

// Prints which line says no event.
fn tell_bad_line<W: Write>(refusal: ScriptRefusal, out: &mut W) -> Result<Status, Stop>
    ensures { IfOk result (λ status. (status ≡ Words) × (number : ℕ) × (refusal ≡ ScriptRefusal.Line number)
        × Appends (W.contents out.old) (W.contents out.new) (bad_line_text number)) }
{
    match refusal {
        ScriptRefusal::Line(number) => {
            writeln!(out, "bad line {number}")?;
            Ok(Status::Words)
        }
        ScriptRefusal::Memory => Err(Stop::Memory),
    }
}

// With what a run begins: both ends have the largest blocks, no path is answered later, and observers
// are told in Confirmable messages.
fn usual_config<A: Allocator + Copy>(alloc: A) -> WorldConfig<A>
    ensures { result ≡ sim_config usual_addresses default_remembered [] }
{
    let szx = largest_szx();
    match WorldConfig::new(alloc, WORD, WORD, szx, szx, MAX_CHANGES_PER_WINDOW) {
        Some(config) => config,
        None => unreachable!(),
    }
}

// The same, but for the observers of these paths, and so many remembered messages.
fn config_with<A: Allocator + Copy>(
    alloc: A,
    plains: &[Path<A>],
    remembered: Remembered,
) -> Result<WorldConfig<A>, PlainRefusal>
    ensures with { IfOk result (λ config. config ≡ sim_config usual_addresses remembered plains.now) }
    ensures full { result ≡ Err PlainRefusal.Full → AreTooMany plains.now }
{
    let mut config = usual_config(alloc);
    config.remembered(remembered, remembered);
    for path in plains {
        if let Err(refusal) = config.plain(path) {
            return Err(refusal);
        }
    }
    Ok(config)
}

// Why nothing is run.
enum NoConfig {
    // The words name one address for both ends, or too many plain paths.
    Words,
    // An allocation was refused.
    Memory,
}

// The same, where the ends stand at these addresses, which are two.
fn config_at<A: Allocator + Copy>(
    alloc: A,
    plains: &[Path<A>],
    remembered: Remembered,
    ends: Addresses,
) -> Result<WorldConfig<A>, NoConfig>
    ensures at { IfOk result (λ config. config ≡ sim_config ends remembered plains.now) }
    ensures two { OnOk result (ends.client ≢ ends.server) }
    ensures words { result ≡ Err NoConfig.Words → IsUnset ends plains.now }
{
    let mut config = match config_with(alloc, plains, remembered) {
        Ok(config) => config,
        Err(PlainRefusal::Full) => return Err(NoConfig::Words),
        Err(PlainRefusal::Memory) => return Err(NoConfig::Memory),
    };
    if config.at(ends.client, ends.server) {
        Ok(config)
    } else {
        Err(NoConfig::Words)
    }
}

// Prints which event is not legal.
fn tell_refusal<W: Write>(refusal: RunRefusal, out: &mut W) -> Result<Status, Stop>
    ensures { IfOk result (λ status. (status ≡ Refused) × (number : ℕ) × (refusal ≡ NotLegal number)
        × Appends (W.contents out.old) (W.contents out.new) (not_legal_text number)) }
{
    match refusal {
        RunRefusal::NotLegal(number) => {
            writeln!(out, "not legal {number}")?;
            Ok(Status::Refused)
        }
        RunRefusal::Memory => Err(Stop::Memory),
    }
}

// Captures the datagrams of a run, where bytes are handed over, and prints what came of it: as a chart, or a line each.
fn print_run<A: Allocator + Copy, W: Write>(
    alloc: A,
    ends: Addresses,
    events: &[Event<A>],
    record: &Record<A>,
    printing: Printing,
    capture: &mut Option<Vec<u8, A>>,
    out: &mut W,
) -> Result<Status, Stop>
    ensures { IfOk result (λ status. status ≡ Done) }
{
    if let Some(bytes) = capture {
        capture_run(alloc, ends, events, record, bytes).map_err(|error| stop_of(&error))?;
    }
    let printed = match printing {
        Printing::Lines => tell_run(alloc, ends, events, record, out),
        Printing::Chart(ink) => draw_run(alloc, ends, ink, events, record, out),
    };
    printed.map_err(|error| stop_of(&error))?;
    Ok(Status::Done)
}

// Runs the events over a client and a server with such a store.
fn run_over<A: Allocator + Copy>(
    store: StoreKind,
    events: &[Event<A>],
    config: &WorldConfig<A>,
) -> Result<Record<A>, RunRefusal>
    ensures record { IfOk result (λ shown. IsRunOf config.now (map event_of events.now) shown) }
    ensures wrong { (number : ℕ) → result ≡ Err (NotLegal number)
        → IsFirstWrong config.now (map event_of events.now) number }
{
    match store {
        StoreKind::List => run_with::<ListStore<A>, A>(events, config),
        StoreKind::Map => run_with::<MapStore<A>, A>(events, config),
    }
}

// Runs the events, with what they begin with, and prints what comes of them, or which one is not legal.
fn run_by<A: Allocator + Copy, W: Write>(
    alloc: A,
    events: &[Event<A>],
    store: StoreKind,
    config: &WorldConfig<A>,
    ends: Addresses,
    printing: Printing,
    capture: &mut Option<Vec<u8, A>>,
    out: &mut W,
) -> Result<Status, Stop>
    ensures runs { IfOk result (IsSim config.now (map event_of events.now)) }
    ensures run { IfOk result (λ status. status ≢ Words) }
{
    match run_over(store, events, config) {
        Ok(record) => print_run(alloc, ends, events, &record, printing, capture, out),
        Err(refusal) => tell_refusal(refusal, out),
    }
}

// The same, where the ends stand at these addresses and remember so many messages, and these paths are plain.
fn run_events<A: Allocator + Copy, W: Write>(
    alloc: A,
    events: &[Event<A>],
    store: StoreKind,
    plains: &[Path<A>],
    remembered: Remembered,
    ends: Addresses,
    printing: Printing,
    capture: &mut Option<Vec<u8, A>>,
    out: &mut W,
) -> Result<Status, Stop>
    ensures runs { IfOk result (IsSim (sim_config ends remembered plains.now) (map event_of events.now)) }
    ensures unset { IfOk result (λ status. status ≡ Words → IsUnset ends plains.now) }
{
    match config_at(alloc, plains, remembered, ends) {
        Ok(config) => run_by(alloc, events, store, &config, ends, printing, capture, out),
        Err(NoConfig::Words) => Ok(Status::Words),
        Err(NoConfig::Memory) => Err(Stop::Memory),
    }
}

// Runs the script in a file, and captures it where bytes are handed over.
fn sim_opened<R: AllocGlobal + Files, W: Write>(
    rt: &R,
    file: &str,
    store: StoreKind,
    plains: &[Path],
    remembered: Remembered,
    ends: Addresses,
    printing: Printing,
    capture: &mut Option<Vec<u8>>,
    out: &mut W,
) -> Result<Status, Stop>
    ensures { IfOk result (λ status. (events : List EventSpec)
        × IsSim (sim_config ends remembered plains.now) events status) }
{
    match fs::open(rt, file) {
        Ok(mut script) => {
            let alloc = rt.alloc();
            sim_captured(
                alloc,
                &mut script,
                store,
                plains,
                remembered,
                ends,
                printing,
                capture,
                out,
            )
        }
        Err(error) => Err(stop_of(&error)),
    }
}

/// Runs the script in a file, over a server with such a store and such plain paths, and ends at these addresses that
/// remember so many messages, and prints what comes of it a line each, or as a chart. A run that comes to its end is
/// captured in a file, where one is named.
pub fn sim_file<R: AllocGlobal + Files, W: Write>(
    rt: &R,
    file: &str,
    store: StoreKind,
    plains: &[Path],
    remembered: Remembered,
    ends: Addresses,
    printing: Printing,
    pcap: Option<&str>,
    out: &mut W,
) -> Result<Status, Stop>
    // The run of a file's script is some list of events, as that of a script from elsewhere.
    ensures { IfOk result (λ status. (events : List EventSpec)
        × IsSim (sim_config ends remembered plains.now) events status) }
{
    let mut capture = match pcap {
        Some(_) => Some(Vec::new(rt.alloc())),
        None => None,
    };
    let status = sim_opened(
        rt,
        file,
        store,
        plains,
        remembered,
        ends,
        printing,
        &mut capture,
        out,
    )?;
    keep_capture(rt, status, pcap, &capture)?;
    Ok(status)
}

// Writes the capture of a run that came to its end into its file.
fn keep_capture<R: AllocGlobal + Files>(
    rt: &R,
    status: Status,
    pcap: Option<&str>,
    capture: &Option<Vec<u8>>,
) -> Result<(), Stop> {
    match (status, pcap, capture) {
        (Status::Done, Some(name), Some(bytes)) => {
            let mut file = fs::create(rt, name)?;
            file.write_all(bytes.as_slice())?;
            Ok(())
        }
        _ => Ok(()),
    }
}
