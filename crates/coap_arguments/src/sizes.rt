//! The sizes of blocks (RFC 7959, section 2.2), read from the words.
ghost use Rattle.std.specs.Prelude.{◌≡◌, ℕ, Some, MatchOption, slice_get};
ghost use Rattle.clap.specs.Words.{found_of, rows_of};
ghost use Rattle.coap_arguments.specs.Sizes.{HasNoSize, HasSize, sizes};

use crate::words::optional;
use clap::ArgMatches;
use coap_types::{MAX_SZX, Szx};

/// The size of a block, where `--size` is one.
pub(crate) fn size_of(given: &ArgMatches<'_>) -> Option<Szx>
    ensures { MatchOption result (HasNoSize (rows_of (found_of given.now)))
        (HasSize (rows_of (found_of given.now))) }
{
    match optional(given, "size") {
        Some(text) => size_in(text),
        None => Szx::new(MAX_SZX),
    }
}

// The size that a text says.
fn size_in(text: &str) -> Option<Szx>
    ensures { MatchOption result ((szx : ℕ) → slice_get sizes szx ≡ Some text.now → ⊥)
        (λ szx. slice_get sizes szx ≡ Some text.now) }
{
    match text {
        "16" => Szx::new(0),
        "32" => Szx::new(1),
        "64" => Szx::new(2),
        "128" => Szx::new(3),
        "256" => Szx::new(4),
        "512" => Szx::new(5),
        "1024" => Szx::new(6),
        _ => None,
    }
}
