//! How old what is reported is: how long before its report the server last held it so.
ghost use Rattle.std.specs.Prelude.{◌≡◌, Some, option_copied};
ghost use Rattle.std.specs.Fmt.{WritesOnOk};
ghost use Rattle.coap_scripts.specs.Happenings.{age_text, fraction_text};
ghost use Rattle.coap_scripts.specs.Lines.{asked_path, holding_after, makes, shown_tag, takes};

use crate::run_lines::is_begin;
use coap_ends::{CallId, Report};
use coap_run::{Change, Event, Kind, Line, What};
use coap_types::{Moment, Path, Tag};
use std::alloc::Allocator;
use std::fmt;

// Milliseconds of a second, of a tenth and of a hundredth.
const SECOND_MS: u64 = 1_000;

const TENTH_MS: u64 = 100;

const HUNDREDTH_MS: u64 = 10;

/// An age in milliseconds, told in seconds with no more digits than it takes.
#[derive(Clone, Copy)]
pub(super) struct Age(pub(super) u64);

impl fmt::Display for Age {
    ghost output = { λ age. Some (age_text age.0) };

    fn fmt<W: fmt::Write>(&self, f: &mut fmt::Formatter<W>) -> fmt::Result {
        let seconds = self.0 / SECOND_MS;
        write!(f, "age {seconds}")?;
        write_fraction(f, self.0 % SECOND_MS)
    }
}

// What is behind whole seconds, in milliseconds: no more digits than it takes.
fn write_fraction<W: fmt::Write>(f: &mut fmt::Formatter<W>, ms: u64) -> fmt::Result
    ensures { WritesOnOk W.write_str_gives f.old result (fraction_text ms) f.new }
{
    let tenths = ms / TENTH_MS;
    let hundredths = ms / HUNDREDTH_MS % 10;
    let thousandths = ms % HUNDREDTH_MS;
    if ms == 0 {
        f.write_str(" s")
    } else if ms % TENTH_MS == 0 {
        write!(f, ".{tenths} s")
    } else if ms % HUNDREDTH_MS == 0 {
        write!(f, ".{tenths}{hundredths} s")
    } else {
        write!(f, ".{tenths}{hundredths}{thousandths} s")
    }
}

// Whether a path holds the representation that is looked for.
#[derive(Clone, Copy)]
enum Holding {
    NotYet,
    Now,
    Until(Moment),
}

impl Holding {
    // .. behind a change at this moment, which makes that representation or another.
    fn after(self, is_this: bool, at: Moment) -> Holding
        ensures { result ≡ holding_after is_this at self }
    {
        match self {
            _ if is_this => Holding::Now,
            Holding::Now => Holding::Until(at),
            before => before,
        }
    }
}

/// The turns of a run that were made so far: how many, of which events, and the lines of the run.
#[derive(Clone, Copy)]
pub(super) struct Turns<'a, A: Allocator + Copy> {
    pub(super) made: usize,
    pub(super) events: &'a [Event<A>],
    pub(super) lines: &'a [Line<A>],
}

impl<'a, A: Allocator + Copy> Turns<'a, A> {
    /// How old what a line reports is at this moment, by the clock of the run. What its path still holds has age 0.
    /// None where nothing is reported, or nothing that the server held.
    pub(super) fn age(&self, kind: &Kind<A>, at: Moment) -> Option<Age> {
        let Kind::Reports(id, report) = kind else {
            return None;
        };
        let tag = shown_tag(report)?;
        let path = self.path_of(*id)?;
        match self.holding(path, tag) {
            Holding::NotYet => None,
            Holding::Now => Some(Age(0)),
            Holding::Until(replaced) => Some(Age(at.since(replaced))),
        }
    }

    // The path of a call or of an observation.
    fn path_of(&self, id: CallId) -> Option<&'a Path<A>> {
        let turns = self.lines.split(|line| is_begin(line));
        for (event, lines) in self.events.iter().take(self.made).zip(turns.skip(1)) {
            if lines.iter().any(|line| takes(line, id)) {
                return asked_path(&event.what);
            }
        }
        None
    }

    // Whether the path holds the representation of this entity-tag.
    fn holding(&self, path: &Path<A>, tag: &Tag) -> Holding {
        let turns = self.lines.split(|line| is_begin(line));
        let mut holding = Holding::NotYet;
        for (event, lines) in self.events.iter().take(self.made).zip(turns.skip(1)) {
            for line in lines {
                if let Kind::Changes(change) = &line.kind {
                    if change.path == *path {
                        holding = holding.after(makes(change, tag), event.at);
                    }
                }
            }
        }
        holding
    }
}

// Whether the change makes the representation of this entity-tag (RFC 7252, section 5.10.6).
fn makes<A: Allocator + Copy>(change: &Change<A>, tag: &Tag) -> bool
    ensures { result ≡ makes tag.now change.now }
{
    change.held.is_some() && tag.as_slice() == change.version.to_be_bytes().as_slice()
}

// Whether the line says that a call or an observation was taken under this number.
fn takes<A: Allocator + Copy>(line: &Line<A>, id: CallId) -> bool
    ensures { result ≡ takes id.0 line.now }
{
    match &line.kind {
        Kind::Takes(Ok(taken)) => *taken == id,
        _ => false,
    }
}

// The path that a call or an observation asks for.
fn asked_path<A: Allocator + Copy>(what: &What<A>) -> Option<&Path<A>>
    ensures { option_copied result ≡ asked_path what.now }
{
    match what {
        What::Call(request) => Some(&request.path),
        What::Observe(path) => Some(path),
        _ => None,
    }
}

// The entity-tag of the representation that a report shows.
fn shown_tag<A: Allocator + Copy>(report: &Report<A>) -> Option<&Tag>
    ensures { option_copied result ≡ shown_tag report.now }
{
    match report {
        Report::Body(fetched) | Report::Value(_, fetched) => fetched.tag.as_ref(),
        Report::Valid(tag) => tag.as_ref(),
        _ => None,
    }
}
