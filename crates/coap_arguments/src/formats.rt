//! The names of formats (RFC 7252, section 12.3).
ghost use Rattle.std.specs.Prelude.{◌<◌, ◌≤◌, ◌-◌, ◌^◌, ◌⊎◌, ℕ, MatchOption};
ghost use Rattle.coap_arguments.specs.Formats.{IsFormatName};
ghost use Rattle.coap_arguments.specs.Numbers.{IsNumber};

use crate::words::small_number;

// The format of a name.
fn named_format(text: &str) -> Option<u16>
    ensures { MatchOption result ((n : ℕ) → IsFormatName text.now n → ⊥) (IsFormatName text.now) }
{
    match text {
        "text/plain" => Some(0),
        "application/link-format" => Some(40),
        "application/xml" => Some(41),
        "application/octet-stream" => Some(42),
        "application/json" => Some(50),
        "application/cbor" => Some(60),
        _ => None,
    }
}

/// The format that a text says by its name or its number.
pub(crate) fn format_in(text: &str) -> Option<u16>
    ensures { MatchOption result ((n : ℕ) → IsNumber text.now n ⊎ IsFormatName text.now n → 2 ^ 16 - 1 < n)
        (λ n. (IsNumber text.now n ⊎ IsFormatName text.now n) × (n ≤ 2 ^ 16 - 1)) }
{
    match named_format(text) {
        Some(format) => Some(format),
        None => small_number(text),
    }
}
