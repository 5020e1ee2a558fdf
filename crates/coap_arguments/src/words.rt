//! The words of the program, read.
ghost use Rattle.std.specs.Prelude.{◌≡◌, ◌<◌, ◌≤◌, ◌-◌, ◌^◌, ℕ, IfOk, IfErr, None, MatchOption, MatchResult, map};
ghost use Rattle.std.specs.Prelude.{codes, ◌↔◌, IsTrue};
ghost use Rattle.std.specs.Prelude.{string_bytes};
ghost use Rattle.clap.specs.Words.{first_of, found_of, rows_of};
ghost use Rattle.coap_arguments.specs.Numbers.{IsInRange, IsNumber, IsOutOfRange};
ghost use Rattle.coap_arguments.specs.Values.{HasCount, HasLimit, HasNoNumber, HasNoStore, HasNoWord, HasNumber};
ghost use Rattle.coap_arguments.specs.Values.{HasRemembered};
ghost use Rattle.coap_arguments.specs.Values.{HasStore, HasWord, IsChoice, IsGiven, IsValue};
ghost use Rattle.coap_arguments.specs.Words.{AsksFor, AsksForIn, IsVersion, IsWrong, IsWrongIn};
ghost use Rattle.coap_arguments.specs.declared.refusals.NumberRefusal.TheVariants.{Count, Limit, Port, Remember};
ghost use Rattle.coap_arguments.specs.declared.orders.WordChoice.{WordChoice as WordChoiceSpec};

use crate::ask_orders::ask_order;
use crate::asking::is_set;
use crate::command_line::coap_command;
use crate::ends::ends_of;
use crate::orders::{DEFAULT_WORD, FOREVER, Order, StoreKind, WordChoice, Wrong};
use crate::path_text::path_of_text;
use crate::plains::plains_of;
use crate::refusals::NumberRefusal;
use crate::servers::{discover_order, ping_order};
use crate::serving::{journal_of, serve_options_of, serving_word};
use crate::together::{dump_order, served_apart};
use clap::ArgMatches;
use coap_types::{BodyLimit, Remembered};
use std::alloc::Global;

/// The order that the words give, of which the first is the program's own name. `--version` alone asks for the
/// version. `clap` reads all others, `path_of_text` reads PATH and `path_of_uri` that of a URI, `hex` reads HEX in
/// upper and lower case, `parse` reads a number, and BODY is taken as it is.
pub fn order<'a>(alloc: Global, words: &'a [String]) -> Result<Order<'a>, Wrong>
    // The order is the one that the words say.
    ensures ok { IfOk result (AsksFor (map string_bytes words.now)) }
    // What is called wrong is wrong. `Words`: they are not `--version` alone, and clap refuses them, with an error of
    // a kind that they call for. `Path`: clap takes them, and PATH or a value of `--plain` is no path, for the reason
    // that is given. `Number`: clap takes them, and an argument is no number in its range. `Word`: clap takes them,
    // and `--word` is no choice of a word. `Address`: clap takes them, and `--host` is neither an address nor a name,
    // or `--address` is no address. `Size`: clap takes them, and `--size` is no size of a block. `Tags`: clap takes
    // them, and an argument is no entity-tag, or given more than four times. `Setting`: clap takes them, and a value
    // of `--hold` or `--delay` says nothing, or `--delay` is given more than 16 times. `Body`: clap takes them, and
    // both of BODY and `--file` are there, or neither. `Store`: clap takes them, and `--store` names no store.
    // `Plains`: clap takes them, and `--plain` names more than 16 paths. `Ends`: clap takes them, and `--client` or
    // `--server` is no address of IPv4 with a port, or they are one. `Together`: clap takes them, and options don't go
    // together: of `get`, `--count` without `--every`, or both of `--every` and `--etag`; of `observe`, both of
    // `--json` and `--hex`; of `serve`, `--json` without `--changes` or with `--trace`, `--script` with
    // `--journal`, or `--renew` without it; of `dump`, `--chart` without `--pcap`. `NoPath`: clap takes them, and
    // behind PORT there is no PATH. `Uri`: clap takes them, and the URI in the place of PORT names nothing that is
    // asked for, for the reason that is given. `Beside`: clap takes them, and beside the URI there is a word too many,
    // or `--host`; or `ping` and `discover` have one with a path. `Hex`: clap takes them, PATH is a path where there is
    // one, and HEX is the hex of no bytes. `Memory` says nothing of the words.
    ensures wrong { IfErr result (IsWrong (map string_bytes words.now)) }
{
    if is_version(words) {
        return Ok(Order::Version);
    }
    order_of(alloc, words)
}

// Whether the words ask for the version of the program, and for nothing else.
fn is_version(words: &[String]) -> bool
    ensures { IsTrue result ↔ IsVersion (map string_bytes words.now) }
{
    match words {
        [_, word] => word.as_str() == "--version",
        _ => false,
    }
}

// The order that the words of a subcommand give.
fn order_of<'a>(alloc: Global, words: &'a [String]) -> Result<Order<'a>, Wrong>
    requires { IsVersion (map string_bytes words.now) → ⊥ }
    ensures ok { IfOk result (AsksFor (map string_bytes words.now)) }
    ensures wrong { IfErr result (IsWrong (map string_bytes words.now)) }
{
    let matches = coap_command(alloc)?.try_get_matches_from(words)?;
    let Some((subcommand, given)) = matches.subcommand() else {
        unreachable!();
    };
    match subcommand {
        "show" => show_order(alloc, given),
        "dump" => dump_order(given),
        "answer" => answer_order(alloc, given),
        "pair" => pair_order(alloc, given),
        "serve" => serve_order(alloc, given),
        "sim" => sim_order(alloc, given),
        "discover" => discover_order(alloc, given),
        "ping" => ping_order(alloc, given),
        _ => ask_order(alloc, subcommand, given),
    }
}

// `coap show HEX`
fn show_order<'a>(alloc: Global, given: &ArgMatches<'a>) -> Result<Order<'a>, Wrong>
    requires { IsGiven (codes "HEX") (rows_of (found_of given.now)) }
    ensures { MatchResult result (AsksForIn (codes "show") (rows_of (found_of given.now)))
        (IsWrongIn (codes "show") (rows_of (found_of given.now))) }
{
    let datagram = hex::decode(alloc, value(given, "HEX"))?;
    Ok(Order::Show { datagram })
}

// `coap answer PATH BODY HEX`
fn answer_order<'a>(alloc: Global, given: &ArgMatches<'a>) -> Result<Order<'a>, Wrong>
    requires path { IsGiven (codes "PATH") (rows_of (found_of given.now)) }
    requires body { IsGiven (codes "BODY") (rows_of (found_of given.now)) }
    requires hex { IsGiven (codes "HEX") (rows_of (found_of given.now)) }
    ensures { MatchResult result (AsksForIn (codes "answer") (rows_of (found_of given.now)))
        (IsWrongIn (codes "answer") (rows_of (found_of given.now))) }
{
    let path = path_of_text(alloc, value(given, "PATH"))?;
    let datagram = hex::decode(alloc, value(given, "HEX"))?;
    Ok(Order::Answer {
        path,
        body: value(given, "BODY"),
        datagram,
    })
}

// `coap pair PATH BODY`
fn pair_order<'a>(alloc: Global, given: &ArgMatches<'a>) -> Result<Order<'a>, Wrong>
    requires path { IsGiven (codes "PATH") (rows_of (found_of given.now)) }
    requires body { IsGiven (codes "BODY") (rows_of (found_of given.now)) }
    ensures { MatchResult result (AsksForIn (codes "pair") (rows_of (found_of given.now)))
        (IsWrongIn (codes "pair") (rows_of (found_of given.now))) }
{
    let text = value(given, "PATH");
    let path = path_of_text(alloc, text)?;
    let Some(word) = word(given, WordChoice::Given(DEFAULT_WORD)) else {
        return Err(Wrong::Word);
    };
    let Some(limit) = limit(given) else {
        return Err(Wrong::Number(NumberRefusal::Limit));
    };
    let Some(remembered) = remembered(given) else {
        return Err(Wrong::Number(NumberRefusal::Remember));
    };
    let body = value(given, "BODY");
    Ok(Order::Pair {
        path,
        body,
        word,
        limit,
        remembered,
    })
}

// `coap serve PORT COUNT`, of which COUNT may be left out
#[tactic(auto, using(crate::proofs::ClapWords::serving_wrong))]
fn serve_order<'a>(alloc: Global, given: &ArgMatches<'a>) -> Result<Order<'a>, Wrong>
    requires { IsGiven (codes "PORT") (rows_of (found_of given.now)) }
    ensures { MatchResult result (AsksForIn (codes "serve") (rows_of (found_of given.now)))
        (IsWrongIn (codes "serve") (rows_of (found_of given.now))) }
{
    let Some(port) = port(given) else {
        return Err(Wrong::Number(NumberRefusal::Port));
    };
    let Some(count) = count(given) else {
        return Err(Wrong::Number(NumberRefusal::Count));
    };
    if let Some(refusal) = served_apart(given) {
        return Err(Wrong::Together(refusal));
    }
    let options = serve_options_of(alloc, given, serving_word(count))?;
    Ok(Order::Serve {
        port,
        count,
        options,
        script: optional(given, "script"),
        pcap: optional(given, "pcap"),
        journal: journal_of(given),
    })
}

// `coap sim FILE`
fn sim_order<'a>(alloc: Global, given: &ArgMatches<'a>) -> Result<Order<'a>, Wrong>
    requires { IsGiven (codes "FILE") (rows_of (found_of given.now)) }
    ensures { MatchResult result (AsksForIn (codes "sim") (rows_of (found_of given.now)))
        (IsWrongIn (codes "sim") (rows_of (found_of given.now))) }
{
    let Some(store) = store(given) else {
        return Err(Wrong::Store);
    };
    let Some(remembered) = remembered(given) else {
        return Err(Wrong::Number(NumberRefusal::Remember));
    };
    let plains = plains_of(alloc, given)?;
    let chart = is_set(given, "chart");
    let (client, server) = match ends_of(given) {
        Ok(ends) => ends,
        Err(refusal) => return Err(Wrong::Ends(refusal)),
    };
    let file = value(given, "FILE");
    Ok(Order::Sim {
        file,
        store,
        plains,
        remembered,
        chart,
        client,
        server,
        pcap: optional(given, "pcap"),
    })
}

// A number of 64 bits.
pub(crate) fn number(text: &str) -> Option<u64>
    ensures { MatchOption result ((n : ℕ) → IsNumber text.now n → 2 ^ 64 - 1 < n) (IsNumber text.now) }
{
    text.parse::<u64>().ok()
}

// PORT, where it is in range.
fn port(given: &ArgMatches<'_>) -> Option<u16>
    requires { IsGiven (codes "PORT") (rows_of (found_of given.now)) }
    ensures { MatchOption result (HasNoNumber Port (rows_of (found_of given.now)))
        (HasNumber Port (rows_of (found_of given.now))) }
{
    small_number(value(given, "PORT"))
}

// COUNT, where it is in range; `forever` where it is left out.
fn count(given: &ArgMatches<'_>) -> Option<u64>
    ensures { MatchOption result (HasNoNumber Count (rows_of (found_of given.now)))
        (HasCount (rows_of (found_of given.now))) }
{
    match optional(given, "COUNT") {
        Some(text) => count_in(text),
        None => Some(FOREVER),
    }
}

// The number that a text says, or the most that there can be.
fn count_in(text: &str) -> Option<u64>
    ensures { MatchOption result (IsOutOfRange Count text.now) (IsInRange Count text.now) }
{
    if text == "forever" {
        return Some(FOREVER);
    }
    number(text)
}

// The word that an end begins with, where it is one; this where it is left out.
pub(crate) fn word(given: &ArgMatches<'_>, usual: WordChoice) -> Option<WordChoice>
    ensures { MatchOption result (HasNoWord (rows_of (found_of given.now)))
        (HasWord usual (rows_of (found_of given.now))) }
{
    match optional(given, "word") {
        Some(text) => choice_of(text),
        None => Some(usual),
    }
}

// The choice of a word that a text says.
fn choice_of(text: &str) -> Option<WordChoice>
    ensures { MatchOption result ((choice : WordChoiceSpec) → IsChoice text.now choice → ⊥) (IsChoice text.now) }
{
    if text == "random" {
        return Some(WordChoice::Random);
    }
    Some(WordChoice::Given(number(text)?))
}

// A number of 16 bits.
pub(crate) fn small_number(text: &str) -> Option<u16>
    ensures { MatchOption result ((n : ℕ) → IsNumber text.now n → 2 ^ 16 - 1 < n)
        (λ n. IsNumber text.now n × (n ≤ 2 ^ 16 - 1)) }
{
    let number = number(text)?;
    u16::try_from(number).ok()
}

// The longest body that an end takes, where it is in range.
pub(crate) fn limit(given: &ArgMatches<'_>) -> Option<BodyLimit>
    ensures { MatchOption result (HasNoNumber Limit (rows_of (found_of given.now)))
        (HasLimit (rows_of (found_of given.now))) }
{
    match optional(given, "limit") {
        Some(text) => limit_of(text),
        None => Some(BodyLimit::default()),
    }
}

// The limit that a text says.
fn limit_of(text: &str) -> Option<BodyLimit>
    ensures { MatchOption result (IsOutOfRange Limit text.now) (IsInRange Limit text.now) }
{
    let number = number(text)?;
    BodyLimit::new(usize::try_from(number).ok()?)
}

// How many messages an end remembers, where it is in range.
pub(crate) fn remembered(given: &ArgMatches<'_>) -> Option<Remembered>
    ensures { MatchOption result (HasNoNumber Remember (rows_of (found_of given.now)))
        (HasRemembered (rows_of (found_of given.now))) }
{
    match optional(given, "remember") {
        Some(text) => remembered_of(text),
        None => Some(Remembered::default()),
    }
}

// The number of remembered messages that a text says.
fn remembered_of(text: &str) -> Option<Remembered>
    ensures { MatchOption result (IsOutOfRange Remember text.now) (IsInRange Remember text.now) }
{
    let number = number(text)?;
    Remembered::new(u32::try_from(number).ok()?)
}

// The store that a script is run over, where `--store` names one.
fn store(given: &ArgMatches<'_>) -> Option<StoreKind>
    ensures { MatchOption result (HasNoStore (rows_of (found_of given.now)))
        (HasStore (rows_of (found_of given.now))) }
{
    let Some(name) = optional(given, "store") else {
        return Some(StoreKind::Map);
    };
    match name {
        "list" => Some(StoreKind::List),
        "map" => Some(StoreKind::Map),
        _ => None,
    }
}

// The value of an argument that may be left out.
pub(crate) fn optional<'a>(given: &ArgMatches<'a>, name: &str) -> Option<&'a str>
    ensures { MatchOption result (first_of name.now (rows_of (found_of given.now)) ≡ None)
        (λ text. IsValue name.now (rows_of (found_of given.now)) text.now) }
{
    given.get_str(name)
}

/// The value of an argument that clap requires.
pub(crate) fn value<'a>(given: &ArgMatches<'a>, name: &str) -> &'a str
    requires { IsGiven name.now (rows_of (found_of given.now)) }
    ensures { IsValue name.now (rows_of (found_of given.now)) result.now }
{
    given.get_str(name).unwrap()
}
