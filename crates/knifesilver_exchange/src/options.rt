//! The options of a message, read one by one and written in rising order.
ghost use Rattle.std.specs.Prelude.{◌≡◌, ◌≢◌, ◌<◌, ◌≤◌, ◌⊎◌, ◌+◌, pos, length, IfSome, IfNone, IfOk, IfErr, None};
ghost use Rattle.coap_types.specs.CoapOption.{option_of};
ghost use Rattle.coap_codec.specs.Message.{Message, Spells};
ghost use Rattle.coap_options.specs.Critical.{first_unknown};
ghost use Rattle.knifesilver_exchange.specs.Answers.{IsRefused};
ghost use Rattle.knifesilver_exchange.specs.Options.{IsAdded, IsNext, IsUnknown, HasNone, RefusesOption};

use crate::answers::{BAD_ARGUMENT, DONE, NOTHING, SMALL_ROOM};
use crate::crossing::copy_out;
use crate::numbers::add_number;
use coap_codec::decode;
use coap_options::{add_option, option_at, unknown_critical};

/// Tells the option at this place of a message, and that the next place is behind it: 1, or 0 where the message has no
/// more, or the datagram spells none.
#[unsafe(no_mangle)]
pub extern "C" fn ks_next_option(
    datagram: &[u8],
    place: &mut usize,
    number: &mut u16,
    room: &mut [u8],
    value_len: &mut usize,
) -> i32
    // What is told is the option at that place of the message that the datagram spells, and the next place is told.
    ensures told { result ≡ pos 1 → IsNext datagram.now place.old place.new number.new room.new value_len.new }
    // No option is told only where no message with an option at that place is spelled.
    ensures nothing { result ≡ pos 0 → HasNone datagram.now place.old }
    // Where the room is too small for the value of an option, its length is told, and the place stays.
    ensures small { result ≡ SMALL_ROOM → (length room.old < value_len.new) × (place.new ≡ place.old) }
    // To ask for an option is refused for a room that is too small, and for nothing else.
    ensures why { IsRefused result → result ≡ SMALL_ROOM }
{
    let Ok(view) = decode(datagram) else {
        return NOTHING;
    };
    // There are fewer options than a place can tell.
    let _options = view.options();
    let Some(option) = option_at(&view, *place) else {
        return NOTHING;
    };
    *value_len = option.value.len();
    if !copy_out(room, option.value) {
        return SMALL_ROOM;
    }
    *number = option.number;
    *place += 1;
    DONE
}

/// Tells the first critical option of a message that is none of these: 1, or 0 where it has none, or the datagram
/// spells no message.
#[unsafe(no_mangle)]
pub extern "C" fn ks_unknown_critical(datagram: &[u8], known: &[u16], number: &mut u16) -> i32
    // The number that is told is that of the first critical option of the message that is none of these.
    ensures told { result ≡ pos 1 → IsUnknown datagram.now known.now number.new }
    // No number is told only where each critical option of what the datagram spells is one of these.
    ensures nothing { result ≡ pos 0 → (m : Message) → Spells datagram.now m → first_unknown known.now m.options
        ≡ None }
    // To ask for a critical option that is not known is never refused.
    ensures only { (result ≡ pos 0) ⊎ (result ≡ pos 1) }
{
    let Ok(view) = decode(datagram) else {
        return NOTHING;
    };
    match unknown_critical(&view, known) {
        Some(unknown) => {
            *number = unknown;
            DONE
        }
        None => NOTHING,
    }
}

/// Writes an option behind `len` bytes of a message, whose last option has the number `last` (0 where it has none yet).
#[unsafe(no_mangle)]
pub extern "C" fn ks_options_add(
    room: &mut [u8],
    len: &mut usize,
    last: &mut u16,
    number: u16,
    value: &[u8],
) -> i32
    // An option that is written stands behind the bytes that stood there, and is that option behind one of the last
    // number.
    ensures added { result ≡ pos 0 → IsAdded room.old len.old last.old number value.now room.new len.new last.new }
    // An option is refused for the room, its number or its length, and the number of the answer says which.
    ensures refused { result ≢ pos 0 → RefusesOption result len.old last.old number value.now (length room.old) }
    // Where an option is refused, what stood there stays, and so do its length and the last number.
    ensures kept { result ≢ pos 0 → (room.new ≡ room.old) × (len.new ≡ len.old) × (last.new ≡ last.old) }
{
    if room.len() < *len {
        return BAD_ARGUMENT;
    }
    match add_option(room, *len, *last, number, value) {
        Ok(end) => {
            *len = end;
            *last = number;
            NOTHING
        }
        Err(why) => add_number(why),
    }
}
