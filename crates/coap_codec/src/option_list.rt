//! Whether a list of options can be written, and how long it is.
ghost use Rattle.std.specs.Prelude.{◌≡◌, ℕ, ◌<◌, ◌^◌, List, length, IsTrue, IfSome, IfNone};
ghost use Rattle.std.specs.List.{list_all, All};
ghost use Rattle.coap_types.specs.CoapOption.{options_of};
ghost use Rattle.coap_codec.specs.Options.{Options};
ghost use Rattle.coap_codec.specs.Refused.{ascends, is_short};
ghost use Rattle.coap_codec.specs.Spelling.{options_bytes};
ghost use Rattle.coap_codec.specs.Writing.{HasNumber};

use crate::nibble::MAX_EXTENDED;
use crate::option_put::room_behind;
use coap_types::Opt;

// The longest value of an option, in bytes: the greatest length that can be said (RFC 7252,
// section 3.1).
const MAX_VALUE_LEN: usize = MAX_EXTENDED;

// The option's number, which fits its type.
fn number_of(option: &Opt<'_>) -> u16
    ensures { result ≡ option.now.number }
{
    option.number
}

/// No number is below the one before.
pub(crate) fn ascends(options: &[Opt<'_>]) -> bool
    ensures exact { result ≡ ascends 0 (options_of options.now) }
    // The numbers are those of options.
    ensures numbers { IsTrue result → All HasNumber options.now }
{
    let mut base = 0;
    for option in options {
        let number = number_of(option);
        if number < base {
            return false;
        }
        base = number;
    }
    true
}

/// No value is too long to be written.
pub(crate) fn are_short(options: &[Opt<'_>]) -> bool
    ensures { result ≡ list_all is_short (options_of options.now) }
{
    for option in options {
        if option.value.len() > MAX_VALUE_LEN {
            return false;
        }
    }
    true
}

/// How many bytes these options are as those of a message, without writing them (RFC 7252, section
/// 3.1).
///
/// None where no bytes are these options, since a number is below the one before it or a value is
/// longer than 65,804 bytes; and where they are more bytes than a `usize` counts.
pub fn options_len(options: &[Opt<'_>]) -> Option<usize>
    // The length that is counted is that of the bytes of these options.
    ensures some { IfSome result (λ n. n ≡ length (options_bytes 0 (options_of options.now))) }
    // Bytes of the length that is counted are these options.
    ensures spelled { IfSome result (λ n.
        Options 0 (options_bytes 0 (options_of options.now)) (options_of options.now)) }
    // No length is answered only where no bytes below 2^64 are these options.
    ensures none { IfNone result ((bytes : List ℕ)
        → Options 0 bytes (options_of options.now) → length bytes < 2 ^ 64 → ⊥) }
{
    if !ascends(options) || !are_short(options) {
        return None;
    }
    let left = room_behind(options, usize::MAX)?;
    Some(usize::MAX - left)
}
