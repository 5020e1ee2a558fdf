//! How options are written (RFC 7252, section 3.1).
ghost use Rattle.std.specs.Prelude.{◌≡◌, ◌≤◌, ◌+◌, true, length};
ghost use Rattle.std.specs.List.{list_all};
ghost use Rattle.coap_types.specs.CoapOption.{option_of, options_of};
ghost use Rattle.coap_codec.specs.Refused.{ascends, is_short};
ghost use Rattle.coap_codec.specs.Writing.{Puts, room_after};
ghost use Rattle.coap_codec.specs.Spelling.{option_bytes, options_bytes};

use crate::nibble::{DELTA_UNIT, more_len, nibble, put_more};
use crate::put::put;
use coap_types::Opt;

// How many bytes an option takes behind one of number `base`.
#[tactic(auto, unfolding(crate::specs::Spelling::option_bytes))]
fn option_len(base: u16, option: &Opt<'_>) -> usize
    requires order { base ≤ option.now.number }
    requires short { length option.now.value.now ≤ 65804 }
    ensures exact { result ≡ length (option_bytes base (option_of option.now)) }
{
    let delta = option.number - base;
    let len = option.value.len();
    1 + more_len(delta as usize) + more_len(len) + len
}

/// The room that is left behind options, None where they have none.
pub(crate) fn room_behind(options: &[Opt<'_>], room: usize) -> Option<usize>
    requires order { ascends 0 (options_of options.now) ≡ true }
    requires short { list_all is_short (options_of options.now) ≡ true }
    ensures { result ≡ room_after room (length (options_bytes 0 (options_of options.now))) }
{
    let mut left = room;
    let mut base = 0;
    for option in options {
        let len = option_len(base, option);
        if left < len {
            return None;
        }
        left -= len;
        base = option.number;
    }
    Some(left)
}

// Writes an option behind one of number `base`, and answers the place behind it.
#[tactic(auto, unfolding(crate::specs::Spelling::option_bytes))]
fn put_option(out: &mut [u8], at: usize, base: u16, option: &Opt<'_>) -> usize
    requires order { base ≤ option.now.number }
    requires short { length option.now.value.now ≤ 65804 }
    requires room { at + length (option_bytes base (option_of option.now)) ≤ length out.old }
    ensures written { Puts out.old at (option_bytes base (option_of option.now)) out.new }
    ensures end { result ≡ at + length (option_bytes base (option_of option.now)) }
{
    let delta = (option.number - base) as usize;
    let len = option.value.len();
    let at = put(out, at, &[nibble(delta) * DELTA_UNIT + nibble(len)]);
    let at = put_more(out, at, delta);
    let at = put_more(out, at, len);
    put(out, at, option.value)
}

/// Writes options one after another, and answers the place behind them.
pub(crate) fn put_options(out: &mut [u8], start: usize, options: &[Opt<'_>]) -> usize
    requires order { ascends 0 (options_of options.now) ≡ true }
    requires short { list_all is_short (options_of options.now) ≡ true }
    requires room { start + length (options_bytes 0 (options_of options.now)) ≤ length out.old }
    ensures written { Puts out.old start (options_bytes 0 (options_of options.now)) out.new }
    ensures end { result ≡ start + length (options_bytes 0 (options_of options.now)) }
{
    let mut at = start;
    let mut base = 0;
    for option in options {
        at = put_option(out, at, base, option);
        base = option.number;
    }
    at
}
