//! Options that don't go together.
ghost use Rattle.std.specs.Prelude.{MatchOption, MatchResult, codes};
ghost use Rattle.clap.specs.Words.{found_of, rows_of};
ghost use Rattle.coap_arguments.specs.Together.{AreApart, GoKept, GoObserved, GoRenewed, GoServed, GoTold};
ghost use Rattle.coap_arguments.specs.Words.{AsksForIn, IsWrongIn};

use crate::asking::is_set;
use crate::orders::{Order, Wrong};
use crate::refusals::TogetherRefusal;
use crate::words::optional;
use clap::ArgMatches;

/// Which options of `observe` don't go together, if any: a value has one form.
pub(crate) fn observed_apart(given: &ArgMatches<'_>) -> Option<TogetherRefusal>
    ensures { MatchOption result (GoObserved (rows_of (found_of given.now)))
        (λ refusal. AreApart refusal (codes "observe") (rows_of (found_of given.now))) }
{
    match (is_set(given, "json"), is_set(given, "hex")) {
        (true, true) => Some(TogetherRefusal::Hex),
        _ => None,
    }
}

/// Which options of `serve` don't go together, if any.
pub(crate) fn served_apart(given: &ArgMatches<'_>) -> Option<TogetherRefusal>
    ensures { MatchOption result (GoServed (rows_of (found_of given.now)))
        (λ refusal. AreApart refusal (codes "serve") (rows_of (found_of given.now))) }
{
    match file_apart(given) {
        Some(refusal) => Some(refusal),
        None => told_apart(given),
    }
}

// What goes with the file that a server goes on from, and with none.
fn file_apart(given: &ArgMatches<'_>) -> Option<TogetherRefusal>
    ensures { MatchOption result (GoKept (rows_of (found_of given.now)) × GoRenewed (rows_of (found_of given.now)))
        (λ refusal. AreApart refusal (codes "serve") (rows_of (found_of given.now))) }
{
    match kept_apart(given) {
        Some(refusal) => Some(refusal),
        None => renewed_apart(given),
    }
}

// A server that goes on from a file is set up by no script.
fn kept_apart(given: &ArgMatches<'_>) -> Option<TogetherRefusal>
    ensures { MatchOption result (GoKept (rows_of (found_of given.now)))
        (λ refusal. AreApart refusal (codes "serve") (rows_of (found_of given.now))) }
{
    match (optional(given, "journal"), optional(given, "script")) {
        (Some(_), Some(_)) => Some(TogetherRefusal::Script),
        _ => None,
    }
}

// What is begun anew is such a file.
fn renewed_apart(given: &ArgMatches<'_>) -> Option<TogetherRefusal>
    ensures { MatchOption result (GoRenewed (rows_of (found_of given.now)))
        (λ refusal. AreApart refusal (codes "serve") (rows_of (found_of given.now))) }
{
    match (is_set(given, "renew"), optional(given, "journal")) {
        (true, None) => Some(TogetherRefusal::Renew),
        _ => None,
    }
}

// Changes are what is told in JSON, and nothing is told beside.
fn told_apart(given: &ArgMatches<'_>) -> Option<TogetherRefusal>
    ensures { MatchOption result (GoTold (rows_of (found_of given.now)))
        (λ refusal. AreApart refusal (codes "serve") (rows_of (found_of given.now))) }
{
    if !is_set(given, "json") {
        return None;
    }
    match (is_set(given, "changes"), is_set(given, "trace")) {
        (false, _) => Some(TogetherRefusal::Json),
        (true, true) => Some(TogetherRefusal::Trace),
        (true, false) => None,
    }
}

/// `coap dump`; with `--pcap`, of a capture, which may be drawn.
pub(crate) fn dump_order<'a>(given: &ArgMatches<'a>) -> Result<Order<'a>, Wrong>
    ensures { MatchResult result (AsksForIn (codes "dump") (rows_of (found_of given.now)))
        (IsWrongIn (codes "dump") (rows_of (found_of given.now))) }
{
    let chart = is_set(given, "chart");
    match optional(given, "pcap") {
        Some(file) => Ok(Order::DumpCapture { file, chart }),
        None if chart => Err(Wrong::Together(TogetherRefusal::Chart)),
        None => Ok(Order::Dump),
    }
}
