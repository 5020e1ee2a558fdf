//! What is asked of a server, and how, read from the words.
ghost use Rattle.std.specs.Prelude.{◌≡◌, ◌-◌, ◌^◌, ◌↔◌, ℕ, List, IsTrue, IfOk, MatchOption, MatchResult, codes};
ghost use Rattle.clap.specs.Words.{found_of, rows_of};
ghost use Rattle.coap_arguments.specs.Asking.{HasContent, HasFlag, HasNoContent, HasOptionalNumber, HasOptions};
ghost use Rattle.coap_arguments.specs.Asking.{HasTags};
ghost use Rattle.coap_arguments.specs.Asking.{IsTagText};
ghost use Rattle.coap_arguments.specs.Formats.{IsFormatName};
ghost use Rattle.coap_arguments.specs.Numbers.{IsWordFor, least_of, most_of};
ghost use Rattle.coap_arguments.specs.WrongOptions.{IsWrongOption};

use crate::formats::format_in;
use crate::orders::{AskOptions, Content, WordChoice, Wrong};
use crate::refusals::{NumberRefusal, TagsRefusal};
use crate::repeating::seconds_of;
use crate::sizes::size_of;
use crate::words::{limit, number, optional, remembered, word};
use clap::ArgMatches;
use coap_types::{Tag, Tags};
use hex::FromHexError;
use std::alloc::{AllocError, Global};

/// The body that is sent, where there is just one: this word, or what is in a file.
pub(crate) fn content_of<'a>(given: &ArgMatches<'a>, word: &str) -> Option<Content<'a>>
    ensures { MatchOption result (HasNoContent word.now (rows_of (found_of given.now)))
        (HasContent word.now (rows_of (found_of given.now))) }
{
    let body = optional(given, word);
    let file = optional(given, "file");
    match (body, file) {
        (Some(text), None) => Some(Content::Text(text)),
        (None, Some(name)) => Some(Content::File(name)),
        _ => None,
    }
}

/// How it is asked for. Where no word is given, the client begins with a random one: with
/// the same word two runs have the same Message IDs and tokens, and the second may be answered with what the server
/// stored for the first (RFC 7252, sections 4.4, 4.5 and 5.3.1).
pub(crate) fn options_of(alloc: Global, given: &ArgMatches<'_>) -> Result<AskOptions, Wrong>
    ensures { MatchResult result (HasOptions (rows_of (found_of given.now)))
        (IsWrongOption (rows_of (found_of given.now))) }
{
    let Some(size) = size_of(given) else {
        return Err(Wrong::Size);
    };
    let trace = is_set(given, "trace");
    let format = format_of(given, NumberRefusal::Format)?;
    let accept = format_of(given, NumberRefusal::Accept)?;
    let etags = tags_of(alloc, given, TagsRefusal::Etag)?;
    let if_match = tags_of(alloc, given, TagsRefusal::IfMatch)?;
    let if_none_match = is_set(given, "if-none-match");
    let every = seconds_of(given, NumberRefusal::Every)?;
    let times = number_of(given, NumberRefusal::Times)?;
    let seconds = number_of(given, NumberRefusal::Seconds)?;
    let again = seconds_of(given, NumberRefusal::Again)?;
    let hex = is_set(given, "hex");
    let json = is_set(given, "json");
    let give_up = number_of(given, NumberRefusal::GiveUp)?;
    let Some(word) = word(given, WordChoice::Random) else {
        return Err(Wrong::Word);
    };
    let Some(limit) = limit(given) else {
        return Err(Wrong::Number(NumberRefusal::Limit));
    };
    let Some(remembered) = remembered(given) else {
        return Err(Wrong::Number(NumberRefusal::Remember));
    };
    Ok(AskOptions {
        size,
        trace,
        format,
        accept,
        etags,
        if_match,
        if_none_match,
        every,
        times,
        seconds,
        again,
        hex,
        json,
        give_up,
        word,
        limit,
        remembered,
    })
}

// A format, by its name or its number, where it is there.
fn format_of(given: &ArgMatches<'_>, argument: NumberRefusal) -> Result<Option<u16>, Wrong>
    requires least { least_of argument ≡ 0 }
    requires most { most_of argument ≡ 2 ^ 16 - 1 }
    requires names { (text : List ℕ) (n : ℕ) → IsWordFor argument text n ↔ IsFormatName text n }
    ensures { MatchResult result (HasOptionalNumber argument (rows_of (found_of given.now)))
        (IsWrongOption (rows_of (found_of given.now))) }
{
    let Some(text) = optional(given, argument.name()) else {
        return Ok(None);
    };
    match format_in(text) {
        Some(n) => Ok(Some(n)),
        None => Err(Wrong::Number(argument)),
    }
}

/// A number of 64 bits, where it is there.
pub(crate) fn number_of(
    given: &ArgMatches<'_>,
    argument: NumberRefusal,
) -> Result<Option<u64>, Wrong>
    requires least { least_of argument ≡ 0 }
    requires most { most_of argument ≡ 2 ^ 64 - 1 }
    requires digits { (text : List ℕ) (n : ℕ) → IsWordFor argument text n → ⊥ }
    ensures { MatchResult result (HasOptionalNumber argument (rows_of (found_of given.now)))
        (IsWrongOption (rows_of (found_of given.now))) }
{
    let Some(text) = optional(given, argument.name()) else {
        return Ok(None);
    };
    match number(text) {
        Some(n) => Ok(Some(n)),
        None => Err(Wrong::Number(argument)),
    }
}

/// Whether a flag is given.
pub(crate) fn is_set(given: &ArgMatches<'_>, name: &str) -> bool
    ensures { HasFlag name.now (rows_of (found_of given.now)) result }
{
    match optional(given, name) {
        Some("true") => true,
        _ => false,
    }
}

// Entity-tags, each given by itself.
fn tags_of(alloc: Global, given: &ArgMatches<'_>, argument: TagsRefusal) -> Result<Tags, Wrong>
    ensures { MatchResult result (HasTags argument (rows_of (found_of given.now)))
        (IsWrongOption (rows_of (found_of given.now))) }
{
    let Some(texts) = given.get_strs(argument.name()) else {
        return Ok(Tags::new());
    };
    let mut tags = Tags::new();
    for text in texts {
        let Some(tag) = tag_of(alloc, text)? else {
            return Err(Wrong::Tags(argument));
        };
        if tags.push(tag).is_err() {
            return Err(Wrong::Tags(argument));
        }
    }
    Ok(tags)
}

// The entity-tag that a text is the hex of.
fn tag_of(alloc: Global, text: &str) -> Result<Option<Tag>, AllocError>
    ensures { IfOk result (λ tag. MatchOption tag ((t : List ℕ) → IsTagText text.now t → ⊥) (IsTagText text.now)) }
{
    match hex::decode(alloc, text) {
        Ok(bytes) => Ok(Tag::new(bytes.as_slice())),
        Err(FromHexError::OutOfMemory) => Err(AllocError),
        Err(_) => Ok(None),
    }
}
