//! The options of a datagram, each in turn: each call goes on where the last one stood (RFC 7252, section 3.1).
ghost use Rattle.std.specs.Prelude.{◌≡◌, ◌≢◌, ◌≤◌, ◌⊎◌, pos, length, List};
ghost use Rattle.coap_types.specs.CoapOption.{CoapOption, option_of};
ghost use Rattle.coap_options.specs.Standing.{IsAstray, IsAtEnd, IsBehind, IsNext, IsWithin, StandsAt};
ghost use Rattle.knifesilver_exchange.specs.Walks.{Begins, IsNoMessage, IsTold, Tells, TellsFirst, cursor_of, ended};

use crate::answers::{BAD_ARGUMENT, DONE, NOTHING};
use coap_options::{Astray, Cursor};
use coap_types::Opt;

/// C's `ks_options`: where the reading of a message's options stands in its datagram.
#[repr(C)]
#[derive(Clone, Copy)]
pub struct KsOptions {
    /// Where the next option begins.
    pub at: usize,
    /// Where the options end.
    pub end: usize,
    /// The number of the option before it; 0 where there is none.
    pub number: u16,
}

/// C's `ks_option`: an option, whose value lies in the datagram.
#[repr(C)]
#[derive(Clone, Copy)]
pub struct KsOption {
    /// Where its value begins.
    pub value_at: usize,
    /// How many bytes its value has.
    pub value_len: usize,
    /// Its number.
    pub number: u16,
}

// The cursor that C keeps.
fn cursor_of(options: &KsOptions) -> Cursor
    ensures { result ≡ cursor_of options.now }
{
    Cursor {
        at: options.at,
        end: options.end,
        number: options.number,
    }
}

// What C keeps of a cursor.
fn kept(cursor: Cursor) -> KsOptions
    ensures { cursor_of result ≡ cursor }
{
    KsOptions {
        at: cursor.at,
        end: cursor.end,
        number: cursor.number,
    }
}

// What C is told of an option whose value lies right in front of the cursor.
fn told(datagram: &[u8], cursor: &Cursor, option: &Opt<'_>) -> KsOption
    requires within { IsWithin datagram.now cursor.now }
    requires behind { IsBehind datagram.now cursor.now (option_of option.now).value }
    ensures { IsTold datagram.now result (option_of option.now) }
{
    let value_len = option.value.len();
    KsOption {
        value_at: cursor.at - value_len,
        value_len,
        number: option.number,
    }
}

/// Begins a reading of the options of the message that the datagram spells.
#[unsafe(no_mangle)]
pub extern "C" fn ks_options_begin(datagram: &[u8], options: &mut KsOptions) -> i32
    // A reading that begins stands before all options of the message that the datagram spells, and its end before the
    // payload with its marker.
    ensures begun { result ≡ pos 0 → Begins datagram.now options.new }
    // A reading is refused for a datagram that spells no message, and for nothing else; it stands at an end then.
    ensures refused { result ≢ pos 0
        → (result ≡ BAD_ARGUMENT) × IsNoMessage datagram.now × (options.new ≡ ended) }
{
    match Cursor::begin(datagram) {
        Some(cursor) => {
            *options = kept(cursor);
            NOTHING
        }
        None => {
            *options = KsOptions {
                at: 0,
                end: 0,
                number: 0,
            };
            BAD_ARGUMENT
        }
    }
}

/// Tells the next option of a reading: 1, or 0 where there is no more.
#[unsafe(no_mangle)]
pub extern "C" fn ks_options_next(
    datagram: &[u8],
    options: &mut KsOptions,
    option: &mut KsOption,
) -> i32
    // Of a reading that stands before some options of the datagram the first is told, and it stands before the others
    // then; where there are none, the answer is 0.
    ensures order { (os : List CoapOption) → StandsAt datagram.now (cursor_of options.old) os
        → TellsFirst datagram.now result options.new option.new os }
    // What a reading tells is the option that lies ahead, with the place of its value, and it is behind that then.
    ensures told { result ≡ pos 1 → Tells datagram.now options.old options.new option.new }
    // A reading tells no option only at the end of the options.
    ensures nothing { result ≡ pos 0 → IsAtEnd datagram.now (cursor_of options.old) }
    // A reading is refused where it stands before no options of the datagram, as one that was tampered with.
    ensures astray { result ≡ BAD_ARGUMENT → IsAstray datagram.now (cursor_of options.old) }
    // A reading that tells no option stays where it is.
    ensures kept { result ≢ pos 1 → (options.new ≡ options.old) × (option.new ≡ option.old) }
    // To go on with a reading is answered by 0, by 1 or by that refusal.
    ensures only { (result ≡ pos 0) ⊎ (result ≡ pos 1) ⊎ (result ≡ BAD_ARGUMENT) }
{
    let mut cursor = cursor_of(options);
    match cursor.next(datagram) {
        Ok(Some(found)) => {
            *option = told(datagram, &cursor, &found);
            *options = kept(cursor);
            DONE
        }
        Ok(None) => NOTHING,
        Err(Astray) => BAD_ARGUMENT,
    }
}
