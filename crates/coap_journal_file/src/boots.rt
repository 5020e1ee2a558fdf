//! Which boot of a machine this is, and for how long it has been up.
ghost use Rattle.std.specs.Prelude.{◌≡◌, fold};
ghost use Rattle.coap_journal_file.specs.Boots.{boot_in, decimal_of, digit_of, named_with, next_place, no_name};
ghost use Rattle.coap_journal_file.specs.Boots.{no_time, timed_digit, timed_with, uptime_in, with_digit};

use coap_journal::Boot;

/// How many hexadecimal digits the name of a boot has.
const NAME_DIGITS: u32 = 32;
/// How many of them its first 64 bits take.
const HALF_DIGITS: u32 = 16;
/// How many milliseconds are in a hundredth of a second.
const MS_PER_HUNDREDTH: u64 = 10;

const _: () = prove!(NAME_DIGITS == 32 && HALF_DIGITS == 16 && MS_PER_HUNDREDTH == 10);

// The digits of a name, so far.
#[derive(Clone, Copy)]
struct Named {
    digits: u32,
    high: u64,
    low: u64,
}

// How far a text that says seconds is read.
#[derive(Clone, Copy, PartialEq, Eq)]
enum Place {
    // Before the point.
    Whole,
    // Behind the point.
    Tenths,
    Hundredths,
    // Behind both digits that follow the point.
    Read,
}

// The hundredths of a second that a text says, so far.
#[derive(Clone, Copy)]
struct Timed {
    hundredths: u64,
    place: Place,
}

// The value of a digit of base 16.
fn digit_of(byte: u8) -> Option<u64>
    ensures { result ≡ digit_of byte }
{
    match byte {
        b'0'..=b'9' => Some(u64::from(byte) - 48),
        b'a'..=b'f' => Some(u64::from(byte) - 87),
        _ => None,
    }
}

// .. of base 10.
fn decimal_of(byte: u8) -> Option<u64>
    ensures { result ≡ decimal_of byte }
{
    match byte {
        b'0'..=b'9' => Some(u64::from(byte) - 48),
        _ => None,
    }
}

// A number with a digit more.
fn with_digit(number: u64, base: u64, digit: u64) -> u64
    ensures { result ≡ with_digit number base digit }
{
    let shifted = number.wrapping_mul(base);
    shifted.wrapping_add(digit)
}

// A name with a byte more.
fn named_with(named: Named, byte: u8) -> Named
    ensures { result ≡ named_with named byte }
{
    let Some(digit) = digit_of(byte) else {
        return named;
    };
    let digits = named.digits.saturating_add(1);
    if named.digits < HALF_DIGITS {
        let high = with_digit(named.high, 16, digit);
        return Named {
            digits,
            high,
            low: named.low,
        };
    }
    let low = with_digit(named.low, 16, digit);
    Named {
        digits,
        high: named.high,
        low,
    }
}

// The digits of a text.
fn named_in(text: &[u8]) -> Named
    ensures { result ≡ fold named_with no_name text.now }
{
    let mut named = Named {
        digits: 0,
        high: 0,
        low: 0,
    };
    for byte in text {
        named = named_with(named, *byte);
    }
    named
}

/// The boot that a text names, as Linux does in `/proc/sys/kernel/random/boot_id`: by 32 hexadecimal digits. All other
/// bytes, as its dashes, say nothing.
pub fn boot_in(text: &[u8]) -> Option<Boot>
    // A boot is the one that the 32 digits of its name say.
    ensures { result ≡ boot_in text.now }
{
    let named = named_in(text);
    if named.digits != NAME_DIGITS {
        return None;
    }
    Some(Boot {
        high: named.high,
        low: named.low,
    })
}

// The place behind this one.
fn next_place(place: Place) -> Place
    ensures { result ≡ next_place place }
{
    match place {
        Place::Whole => Place::Whole,
        Place::Tenths => Place::Hundredths,
        Place::Hundredths => Place::Read,
        Place::Read => Place::Read,
    }
}

// Seconds with a digit more.
fn timed_digit(timed: Timed, digit: u64) -> Timed
    ensures { result ≡ timed_digit timed digit }
{
    if timed.place == Place::Read {
        return timed;
    }
    let hundredths = with_digit(timed.hundredths, 10, digit);
    let place = next_place(timed.place);
    Timed { hundredths, place }
}

// .. with a byte more.
fn timed_with(timed: Timed, byte: u8) -> Timed
    ensures { result ≡ timed_with timed byte }
{
    if byte == b'.' && timed.place == Place::Whole {
        return Timed {
            hundredths: timed.hundredths,
            place: Place::Tenths,
        };
    }
    match decimal_of(byte) {
        Some(digit) => timed_digit(timed, digit),
        None => timed,
    }
}

// The seconds of a text.
fn timed_in(text: &[u8]) -> Timed
    ensures { result ≡ fold timed_with no_time text.now }
{
    let mut timed = Timed {
        hundredths: 0,
        place: Place::Whole,
    };
    for byte in text {
        timed = timed_with(timed, *byte);
    }
    timed
}

/// The milliseconds that a text says in seconds with two digits behind a point, as Linux does in `/proc/uptime`; what
/// follows them says nothing.
pub fn uptime_in(text: &[u8]) -> Option<u64>
    // An uptime is the one that the digits up to the second one behind the point say.
    ensures { result ≡ uptime_in text.now }
{
    let timed = timed_in(text);
    if timed.place != Place::Read {
        return None;
    }
    Some(timed.hundredths.saturating_mul(MS_PER_HUNDREDTH))
}
