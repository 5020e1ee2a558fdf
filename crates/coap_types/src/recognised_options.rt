//! Which options of a message are recognised, and whether a critical one is not (RFC 7252, section 5.4.1).
ghost use Rattle.std.specs.Prelude.{◌≡◌, ◌<◌, ◌++◌, ◌||◌, ◌&&◌, ◌%◌, ◌==◌, not, [], ◌∷◌, List, IfOk, Some, is_some};
ghost use Rattle.std.specs.Prelude.{option_copied, if◌then◌else◌};
ghost use Rattle.std.specs.Iterator.{Drains, IsFinite};
ghost use Rattle.coap_types.specs.CoapOption.{CoapOption, option_of, options_of};
ghost use Rattle.coap_types.specs.Recognised.{Recognised, carries, has_number, is_critical, is_recognised};
ghost use Rattle.coap_types.specs.Recognised.{lacks_critical, recognised_value};
ghost use Rattle.coap_types.specs.SeenNumbers.{Remembers};

use crate::direction::Direction;
use crate::option_number::SIZE1;
use crate::option_rule::Occurrence::{Never, Once, Repeatable};
use crate::options::Opt;
use crate::recognition::rule;
use std::alloc::{AllocError, Allocator};

// One more than the greatest number of an option that is recognised (RFC 7252, section 12.2).
const NUMBERS: usize = SIZE1 as usize + 1;

const _: () = prove!(NUMBERS == 61);

// Whether an option of this number was seen.
fn was_seen(seen: &[bool; NUMBERS], number: u16) -> bool
    ensures { (before : List CoapOption) → Remembers seen.now before → number < NUMBERS
        → result ≡ has_number number before }
{
    let index = usize::from(number);
    index < NUMBERS && seen[index]
}

// An option of this number is seen.
fn see(seen: &mut [bool; NUMBERS], number: u16)
    ensures { (before : List CoapOption) (o : CoapOption) → o.number ≡ number → Remembers seen.old before
        → Remembers seen.new (before ++ o ∷ []) }
{
    let index = usize::from(number);
    if index < NUMBERS {
        seen[index] = true;
    }
}

// Whether an option is recognised, where one of its number stood before it or not.
fn is_recognised(direction: Direction, option: Opt<'_>, again: bool) -> bool
    ensures { (before : List CoapOption) → (option.entry.number < NUMBERS
        → again ≡ has_number option.entry.number before)
        → result ≡ is_recognised direction before (option_of option.entry) }
{
    let Some(rule) = rule(option.number) else {
        return false;
    };
    let expected = match direction.occurrence(rule) {
        Never => false,
        Once => !again,
        Repeatable => true,
    };
    expected && rule.min_len <= option.value.len() && option.value.len() <= rule.max_len
}

/// The options that are recognised in a message of this direction, in order, and whether a critical
/// option is not recognised (RFC 7252, sections 5.4.1, 5.4.3 and 5.4.5): an option is recognised
/// where it has a rule for the direction, its value has an allowed length, and it is repeatable or
/// the first of its number, those of a wrong length included.
#[inline(always)]
pub fn recognised<'a, I: Iterator<Item = Opt<'a>> + Drop, A: Allocator + Copy>(
    alloc: A,
    direction: Direction,
    options: I,
) -> Result<(Vec<Opt<'a>, A>, bool), AllocError>
    requires can { I.can_next options }
    requires ends { IsFinite (I.remaining options) }
    // Found are the recognised options, in order, and whether a critical one isn't among them (RFC 7252, section 5.4).
    ensures { IfOk result (λ found. (all : List _) × Drains I.next_gives options all
        × Recognised direction (options_of all) (options_of found.0.items) found.1) }
{
    let mut seen = [false; NUMBERS];
    let mut list = Vec::new(alloc);
    let mut bad = false;
    for option in options {
        let again = was_seen(&seen, option.number);
        if is_recognised(direction, option, again) {
            list.push(option)?;
        } else if option.number % 2 == 1 {
            bad = true;
        }
        see(&mut seen, option.number);
    }
    Ok((list, bad))
}

// Whether a critical option that is not recognised was found, or this one is such, where those of these numbers stood
// before it.
fn or_critical(direction: Direction, found: bool, option: Opt<'_>, seen: &[bool; NUMBERS]) -> bool
    ensures { (before : List CoapOption) → Remembers seen.now before → result
        ≡ (found || (is_critical (option_of option.entry)
        && not (is_recognised direction before (option_of option.entry)))) }
{
    if found || option.number % 2 == 0 {
        return found;
    }
    !is_recognised(direction, option, was_seen(seen, option.number))
}

/// Whether a message of this direction has a critical option that is not recognised, as
/// `recognised` says (RFC 7252, section 5.4.1). It takes no memory.
pub fn lacks_critical<'a, I: Iterator<Item = Opt<'a>> + Drop>(
    direction: Direction,
    options: I,
) -> bool
    requires can { I.can_next options }
    requires ends { IsFinite (I.remaining options) }
    // Whether a critical option is not recognised is answered as `recognised` does (RFC 7252, section 5.4.1).
    ensures { (all : List _) × Drains I.next_gives options all × (result ≡ lacks_critical direction (options_of all)) }
{
    let mut seen = [false; NUMBERS];
    let mut bad = false;
    for option in options {
        bad = or_critical(direction, bad, option, &seen);
        see(&mut seen, option.number);
    }
    bad
}

// The value that was found, or else this one where it is recognised.
fn or_else<'a>(found: Option<&'a [u8]>, recognised: bool, value: &'a [u8]) -> Option<&'a [u8]>
    ensures { option_copied result ≡ (if is_some (option_copied found.entry) || not recognised
        then option_copied found.entry else Some value.now) }
{
    match found {
        None if recognised => Some(value),
        _ => found,
    }
}

// The value that was found, or else that of this option, where it has the number and is recognised; `again`: whether
// one of the number stood before it.
fn found_with<'a>(
    direction: Direction,
    number: u16,
    found: Option<&'a [u8]>,
    again: bool,
    option: Opt<'a>,
) -> Option<&'a [u8]>
    ensures { (before : List CoapOption) → again ≡ has_number number before
        → option_copied result ≡ (if is_some (option_copied found.entry)
        || not ((option.entry.number == number) && is_recognised direction before (option_of option.entry))
        then option_copied found.entry else Some option.entry.value.now) }
{
    if option.number != number {
        return found;
    }
    let known = is_recognised(direction, option, again);
    or_else(found, known, option.value)
}

// Whether one of the number was seen, or this is one.
fn or_same(again: bool, same: bool) -> bool
    ensures { result ≡ (again || same) }
{
    again || same
}

/// The value of the first option of this number that is recognised in a message of this direction
/// (RFC 7252, section 5.4). It takes no memory.
pub fn recognised_value<'a, I: Iterator<Item = Opt<'a>> + Drop>(
    direction: Direction,
    number: u16,
    options: I,
) -> Option<&'a [u8]>
    requires can { I.can_next options }
    requires ends { IsFinite (I.remaining options) }
    // The value that is answered is that of the first recognised option of this number (RFC 7252, section 5.4).
    ensures { (all : List _) × Drains I.next_gives options all
        × (option_copied result ≡ recognised_value direction number (options_of all)) }
{
    let mut again = false;
    let mut found = None;
    for option in options {
        found = found_with(direction, number, found, again, option);
        again = or_same(again, option.number == number);
    }
    found
}

/// Whether a message of this direction carries a recognised option of this number (RFC 7252,
/// section 5.4). It takes no memory.
pub fn carries<'a, I: Iterator<Item = Opt<'a>> + Drop>(
    direction: Direction,
    number: u16,
    options: I,
) -> bool
    requires can { I.can_next options }
    requires ends { IsFinite (I.remaining options) }
    // An option is carried exactly where a recognised one has this number (RFC 7252, section 5.4).
    ensures { (all : List _) × Drains I.next_gives options all × (result ≡ carries direction number (options_of all)) }
{
    recognised_value(direction, number, options).is_some()
}
