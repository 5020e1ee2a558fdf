//! What is asked for again and again, read from the words.
ghost use Rattle.std.specs.Prelude.{◌≡◌, ◌<◌, ◌≤◌, ◌-◌, ◌^◌, ◌⊎◌, ℕ, List, MatchOption, MatchResult, codes};
ghost use Rattle.clap.specs.Words.{found_of, rows_of};
ghost use Rattle.coap_arguments.specs.Asking.{HasOptionalNumber};
ghost use Rattle.coap_arguments.specs.Numbers.{IsNumber, IsWordFor, least_of, most_of};
ghost use Rattle.coap_arguments.specs.WrongOptions.{IsWrongOption};
ghost use Rattle.coap_arguments.specs.Together.{AreApart, GoTogether};

use crate::orders::Wrong;
use crate::refusals::{NumberRefusal, TogetherRefusal};
use crate::words::{number, optional};
use clap::ArgMatches;

// The shortest time from one to the next, in seconds.
const SHORTEST_SECONDS: u64 = 1;

/// Which options of `get` don't go together, if any: `--count` counts the readings of `--every`, and each of these
/// reads the body, whatever the client has.
pub(crate) fn apart(given: &ArgMatches<'_>) -> Option<TogetherRefusal>
    ensures { MatchOption result (GoTogether (rows_of (found_of given.now)))
        (λ refusal. AreApart refusal (codes "get") (rows_of (found_of given.now))) }
{
    let every = optional(given, "every");
    let count = optional(given, "count");
    let etag = optional(given, "etag");
    match (every, count, etag) {
        (None, Some(_), _) => Some(TogetherRefusal::Count),
        (Some(_), _, Some(_)) => Some(TogetherRefusal::Etag),
        _ => None,
    }
}

/// After how many seconds something is done again, where it is.
pub(crate) fn seconds_of(
    given: &ArgMatches<'_>,
    argument: NumberRefusal,
) -> Result<Option<u64>, Wrong>
    requires least { least_of argument ≡ 1 }
    requires most { most_of argument ≡ 2 ^ 64 - 1 }
    requires digits { (text : List ℕ) (n : ℕ) → IsWordFor argument text n → ⊥ }
    ensures { MatchResult result (HasOptionalNumber argument (rows_of (found_of given.now)))
        (IsWrongOption (rows_of (found_of given.now))) }
{
    let Some(text) = optional(given, argument.name()) else {
        return Ok(None);
    };
    match seconds_in(text) {
        Some(seconds) => Ok(Some(seconds)),
        None => Err(Wrong::Number(argument)),
    }
}

// The time from one to the next that a text says, in seconds.
fn seconds_in(text: &str) -> Option<u64>
    ensures { MatchOption result ((n : ℕ) → IsNumber text.now n → (n < 1) ⊎ (2 ^ 64 - 1 < n))
        (λ n. IsNumber text.now n × (1 ≤ n) × (n ≤ 2 ^ 64 - 1)) }
{
    let seconds = number(text)?;
    if seconds < SHORTEST_SECONDS {
        return None;
    }
    Some(seconds)
}
