//! What comes of a script, as a text.
ghost use Rattle.std.specs.Prelude.{◌≡◌, ℕ, List, IfOk, map};
ghost use Rattle.coap_run.specs.Run.Happening.{event_of};
ghost use Rattle.coap_scripts.specs.Script.{EachSays, lines_of};
ghost use Rattle.coap_page.specs.Runs.{IsTold, IsToldOf, bad_line, not_legal};

use crate::configured::{NoConfig, config_of};
use crate::ended::Ended;
use crate::into_room::Printing;
use crate::played::play_run;
use crate::room::{NoMemory, Told};
use coap_print::Ink;
use coap_run::{Event, Record, RunRefusal, WorldConfig, run};
use coap_scripts::{ScriptRefusal, USUAL_ENDS, draw_run, events_of, tell_run};
use std::alloc::Allocator;
use std::io;

// Prints what came of a run.
fn print_run<A: Allocator + Copy>(
    alloc: A,
    events: &[Event<A>],
    record: &Record<A>,
    printing: Printing,
    text: &mut Vec<u8, A>,
) -> io::Result<()> {
    match printing {
        Printing::Lines => tell_run(alloc, USUAL_ENDS, events, record, text),
        Printing::Chart => draw_run(alloc, USUAL_ENDS, Ink::Plain, events, record, text),
        Printing::All => play_run(alloc, events, record, text),
    }
}

// The line that names an event that is not legal.
fn refusal_text<A: Allocator + Copy>(alloc: A, number: usize) -> Result<Vec<u8, A>, NoMemory>
    ensures { IfOk result (λ text. text.items ≡ not_legal number) }
{
    Ok(format!(in alloc; "not legal {number}\n")?.into_bytes())
}

// The line that names a line that can't be read.
fn bad_line_text<A: Allocator + Copy>(alloc: A, number: usize) -> Result<Vec<u8, A>, NoMemory>
    ensures { IfOk result (λ text. text.items ≡ bad_line number) }
{
    Ok(format!(in alloc; "bad line {number}\n")?.into_bytes())
}

// Runs events, and tells what comes of them.
fn run_told<A: Allocator + Copy>(
    alloc: A,
    events: &[Event<A>],
    config: &WorldConfig<A>,
    printing: Printing,
) -> Result<Told<A>, NoMemory>
    ensures { IfOk result (λ told. IsToldOf config.now (map event_of events.now) told.ended told.text.items) }
{
    match run(events, config) {
        Ok(record) => {
            let mut text = Vec::new(alloc);
            print_run(alloc, events, &record, printing, &mut text)?;
            let ended = Ended::Done;
            Ok(Told { ended, text })
        }
        Err(RunRefusal::NotLegal(number)) => {
            let text = refusal_text(alloc, number)?;
            let ended = Ended::Refused;
            Ok(Told { ended, text })
        }
        Err(RunRefusal::Memory) => Err(NoMemory),
    }
}

// Runs events where these paths are plain, and tells what comes of them.
fn events_told<A: Allocator + Copy>(
    alloc: A,
    events: &[Event<A>],
    plains: &[u8],
    printing: Printing,
) -> Result<Told<A>, NoMemory>
    ensures { (script : List ℕ) → EachSays (lines_of script) (map event_of events.now)
        → IfOk result (λ told. IsTold script plains.now told.ended told.text.items) }
{
    match config_of(alloc, plains) {
        Ok(config) => run_told(alloc, events, &config, printing),
        Err(NoConfig::Plains) => Ok(Told {
            ended: Ended::Words,
            text: Vec::new(alloc),
        }),
        Err(NoConfig::Memory) => Err(NoMemory),
    }
}

/// Runs a script where these paths are plain, a line each, and tells what comes of it.
pub(crate) fn script_told<A: Allocator + Copy>(
    alloc: A,
    script: &[u8],
    plains: &[u8],
    printing: Printing,
) -> Result<Told<A>, NoMemory>
    ensures { IfOk result (λ told. IsTold script.now plains.now told.ended told.text.items) }
{
    match events_of(alloc, script) {
        Ok(events) => events_told(alloc, events.as_slice(), plains, printing),
        Err(ScriptRefusal::Line(number)) => {
            let text = bad_line_text(alloc, number)?;
            let ended = Ended::Words;
            Ok(Told { ended, text })
        }
        Err(ScriptRefusal::Memory) => Err(NoMemory),
    }
}
