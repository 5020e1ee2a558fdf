//! How a server is set up, read from the words.
ghost use Rattle.std.specs.Prelude.{◌≡◌, ◌<◌, ◌++◌, ◌∷◌, [], IfOk, MatchOption, MatchResult, is_some, length};
ghost use Rattle.std.specs.List.{after_first, before_first, position_or_len};
ghost use Rattle.clap.specs.Words.{first_of, found_of, rows_of};
ghost use Rattle.coap_types.specs.Path.{HoldsAtMost};
ghost use Rattle.coap_types.specs.declared.path.TheConstants.{MAX_SEGMENT_LEN as max_segment_len};
ghost use Rattle.coap_types.specs.declared.path.TheConstants.{MAX_SEGMENTS as max_segments};
ghost use Rattle.coap_arguments.specs.PathText.{IsNoPath, IsPathText};
ghost use Rattle.coap_arguments.specs.Serving.{HasDelays, HasHolds, HasJournal, HasServeOptions, IsDelay, IsHold};
ghost use Rattle.coap_arguments.specs.Serving.{is_equals, serving_word};
ghost use Rattle.coap_arguments.specs.WrongOptions.{IsWrongOption, IsWrongServing};
ghost use Rattle.coap_arguments.specs.declared.orders.Delay.{Delay as DelaySpec};
ghost use Rattle.coap_arguments.specs.declared.orders.Hold.{Hold as HoldSpec};

use crate::asking::is_set;
use crate::hosts::address_of;
use crate::orders::{
    DEFAULT_WORD, Delay, FOREVER, Hold, Journal, MAX_DELAYS, ServeOptions, WordChoice, Wrong,
};
use crate::path_text::path_of_text;
use crate::plains::plains_of;
use crate::refusals::{NumberRefusal, SettingRefusal};
use crate::words::{limit, number, optional, remembered, word};
use clap::ArgMatches;
use coap_types::{Path, PathRefusal};
use std::alloc::{AllocError, Global};

/// The word that a server of so many datagrams begins with where none is given. One that serves for ever is run again
/// and again, and begins with a random one, so that no two runs have the same Message IDs (RFC 7252, section 4.4).
pub(crate) fn serving_word(count: u64) -> WordChoice
    ensures { result ≡ serving_word count }
{
    match count {
        FOREVER => WordChoice::Random,
        _ => WordChoice::Given(DEFAULT_WORD),
    }
}

/// How something is served, and what; with this word where none is given.
pub(crate) fn serve_options_of(
    alloc: Global,
    given: &ArgMatches<'_>,
    usual: WordChoice,
) -> Result<ServeOptions, Wrong>
    ensures { MatchResult result (HasServeOptions usual (rows_of (found_of given.now)))
        (IsWrongServing (rows_of (found_of given.now))) }
{
    let address = address_of(given)?;
    let holds = holds_of(alloc, given)?;
    let delays = delays_of(alloc, given)?;
    let plains = plains_of(alloc, given)?;
    let trace = is_set(given, "trace");
    let changes = is_set(given, "changes");
    let json = is_set(given, "json");
    let Some(word) = word(given, usual) else {
        return Err(Wrong::Word);
    };
    let Some(limit) = limit(given) else {
        return Err(Wrong::Number(NumberRefusal::Limit));
    };
    let Some(remembered) = remembered(given) else {
        return Err(Wrong::Number(NumberRefusal::Remember));
    };
    Ok(ServeOptions {
        address,
        holds,
        delays,
        plains,
        trace,
        changes,
        json,
        word,
        limit,
        remembered,
    })
}

// Whether an argument has a value.
fn is_said(given: &ArgMatches<'_>, name: &str) -> bool
    ensures { result ≡ is_some (first_of name.now (rows_of (found_of given.now))) }
{
    optional(given, name).is_some()
}

/// The journal that `--journal` names, and what the words say beside it.
pub(crate) fn journal_of<'a>(given: &ArgMatches<'a>) -> Option<Journal<'a>>
    ensures { HasJournal (rows_of (found_of given.now)) result }
{
    let file = optional(given, "journal")?;
    Some(Journal {
        file,
        says_word: is_said(given, "word"),
        says_limit: is_said(given, "limit"),
        says_remembered: is_said(given, "remember"),
        renews: is_set(given, "renew"),
    })
}

// What `--hold` says, each by itself.
fn holds_of(alloc: Global, given: &ArgMatches<'_>) -> Result<Vec<Hold>, Wrong>
    ensures { MatchResult result (λ holds. HasHolds (rows_of (found_of given.now)) holds.items)
        (IsWrongOption (rows_of (found_of given.now))) }
{
    let mut holds = Vec::new(alloc);
    let Some(texts) = given.get_strs(SettingRefusal::Hold.name()) else {
        return Ok(holds);
    };
    for text in texts {
        let Some(hold) = hold_of(alloc, text)? else {
            return Err(Wrong::Setting(SettingRefusal::Hold));
        };
        add(&mut holds, hold)?;
    }
    Ok(holds)
}

// What `--delay` says, each by itself.
fn delays_of(alloc: Global, given: &ArgMatches<'_>) -> Result<Vec<Delay>, Wrong>
    ensures { MatchResult result (λ delays. HasDelays (rows_of (found_of given.now)) delays.items)
        (IsWrongOption (rows_of (found_of given.now))) }
{
    let mut delays = Vec::new(alloc);
    let Some(texts) = given.get_strs(SettingRefusal::Delay.name()) else {
        return Ok(delays);
    };
    for text in texts {
        let Some(delay) = delay_of(alloc, text)? else {
            return Err(Wrong::Setting(SettingRefusal::Delay));
        };
        if delays.len() >= MAX_DELAYS {
            return Err(Wrong::Setting(SettingRefusal::Delay));
        }
        add(&mut delays, delay)?;
    }
    Ok(delays)
}

// Adds an item behind the others.
fn add<T: Drop>(items: &mut Vec<T>, item: T) -> Result<(), AllocError>
    ensures { IfOk result (λ _. items.new.items ≡ items.old.items ++ item ∷ []) }
{
    items.push(item)?;
    Ok(())
}

// What a text says that a server holds.
fn hold_of(alloc: Global, text: &str) -> Result<Option<Hold>, AllocError>
    ensures { IfOk result (λ hold. MatchOption hold ((h : HoldSpec) → IsHold text.now h → ⊥) (IsHold text.now)) }
{
    let Some((name, body)) = cut(text) else {
        return Ok(None);
    };
    let Some(path) = path_in(alloc, name)? else {
        return Ok(None);
    };
    let body = body.as_bytes().to_vec(alloc)?;
    Ok(Some(Hold { path, body }))
}

// How long a text says that a request waits.
fn delay_of(alloc: Global, text: &str) -> Result<Option<Delay>, AllocError>
    ensures { IfOk result (λ delay. MatchOption delay ((d : DelaySpec) → IsDelay text.now d → ⊥) (IsDelay text.now)) }
{
    let Some((name, ms)) = cut(text) else {
        return Ok(None);
    };
    let Some(ms) = number(ms) else {
        return Ok(None);
    };
    match path_in(alloc, name)? {
        Some(path) => Ok(Some(Delay { path, ms })),
        None => Ok(None),
    }
}

// What stands before the first `=` of a text, and what behind.
fn cut(text: &str) -> Option<(&str, &str)>
    ensures { MatchOption result (position_or_len is_equals text.now ≡ length text.now)
        (λ parts. (position_or_len is_equals text.now < length text.now)
        × (parts.0.now ≡ before_first is_equals text.now) × (parts.1.now ≡ after_first is_equals text.now)) }
{
    text.split_once('=')
}

// The path that a text says, where it says one.
fn path_in(alloc: Global, text: &str) -> Result<Option<Path>, AllocError>
    ensures { IfOk result (λ path. MatchOption path (IsNoPath text.now)
        (λ p. IsPathText text.now p × HoldsAtMost max_segments max_segment_len p)) }
{
    match path_of_text(alloc, text) {
        Ok(path) => Ok(Some(path)),
        Err(PathRefusal::Memory) => Err(AllocError),
        Err(_) => Ok(None),
    }
}
