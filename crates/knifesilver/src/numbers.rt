//! The numbers of refusals and faults: those of each call stand apart, and none of them is 0 or 1.
ghost use Rattle.std.specs.Prelude.{◌≡◌, ◌+◌, pos};
ghost use Rattle.coap_client.specs.RefusalNumbers.{call_refusal_number, cancel_refusal_number};
ghost use Rattle.coap_codec.specs.Faulty.{reason_number};
ghost use Rattle.coap_resource.specs.Content.{refusal_number};
ghost use Rattle.knifesilver.specs.Woulds.{would_number as would_number_lem};

use coap_codec::Reason;
use coap_ends::{CallRefusal, CancelRefusal};
use coap_layer::Would;
use coap_resource::StoreRefusal;

// A store that is not changed: 16, and the number of its refusal.
const SET_MEMORY: i32 = 17;

const SET_TOO_LARGE: i32 = 18;

const SET_TOO_MANY_PATHS: i32 = 19;

const SET_RATE_EXCEEDED: i32 = 20;

const SET_VERSIONS_SPENT: i32 = 21;

// A call that is not taken: 32, and the number of its refusal.
const CALL_QUEUE_FULL: i32 = 33;

const CALL_BODY_TOO_LARGE: i32 = 34;

const CALL_BAD_PATH: i32 = 35;

const CALL_MEMORY: i32 = 36;

const CALL_WATCHES_FULL: i32 = 37;

const CALL_CALLS_SPENT: i32 = 38;

/// No further path is given a delay.
pub(crate) const DELAY_FULL: i32 = 48;
/// No further path is made plain.
pub(crate) const PLAIN_FULL: i32 = 49;

// A cancel that is not taken: 56, and the number of its refusal.
const CANCEL_UNKNOWN: i32 = 57;

const CANCEL_QUEUE_FULL: i32 = 58;

// What a datagram would be: 64, and its place among the eight.
const WOULD_IGNORE: i32 = 64;

const WOULD_REJECT: i32 = 65;

const WOULD_REPEAT: i32 = 66;

const WOULD_TAKE: i32 = 67;

const WOULD_NO_PLACE: i32 = 68;

const WOULD_NO_ID: i32 = 69;

const WOULD_ACKNOWLEDGE: i32 = 70;

const WOULD_RESET: i32 = 71;

// A datagram that is no message: 80, and the number of its first fault.
const FAULT_SHORT: i32 = 81;

const FAULT_VERSION: i32 = 82;

const FAULT_TOKEN_LENGTH: i32 = 83;

const FAULT_TOKEN_CUT: i32 = 84;

const FAULT_EMPTY_NOT_BARE: i32 = 85;

const FAULT_DELTA_RESERVED: i32 = 86;

const FAULT_LENGTH_RESERVED: i32 = 87;

const FAULT_OPTION_CUT: i32 = 88;

const FAULT_NUMBER_TOO_LARGE: i32 = 89;

const FAULT_NO_PAYLOAD: i32 = 90;

// A peer that is not named: 96, and which of these refusals it is.
/// Each place is taken.
pub(crate) const NAMES_FULL: i32 = 96;
/// All names are used up.
pub(crate) const NAMES_SPENT: i32 = 97;

const _: () = prove!(NAMES_FULL == 96 && NAMES_SPENT == 97);

// A journal that is not replayed: 144, and the number of its refusal.
/// Whole frames stand behind one that isn't.
pub(crate) const JOURNAL_DAMAGED: i32 = 145;
/// No frame is whole.
pub(crate) const JOURNAL_NOT_BEGUN: i32 = 146;
/// It has another format.
pub(crate) const JOURNAL_OTHER_FORMAT: i32 = 147;
/// It is of a server by another law.
pub(crate) const JOURNAL_OTHER_LAW: i32 = 148;
/// A whole frame holds no record, or the first one no beginning.
pub(crate) const JOURNAL_UNREADABLE: i32 = 149;
/// More datagrams were given out than its server had.
pub(crate) const JOURNAL_OTHER_SERVER: i32 = 150;

const _: () = prove!(
    JOURNAL_DAMAGED == 145 && JOURNAL_NOT_BEGUN == 146 && JOURNAL_OTHER_FORMAT == 147
);

const _: () = prove!(
    JOURNAL_OTHER_LAW == 148 && JOURNAL_UNREADABLE == 149 && JOURNAL_OTHER_SERVER == 150
);

/// The number of a refusal of the store.
pub(crate) fn set_number(why: StoreRefusal) -> i32
    ensures { result ≡ pos (16 + refusal_number why) }
{
    match why {
        StoreRefusal::Memory => SET_MEMORY,
        StoreRefusal::TooLarge => SET_TOO_LARGE,
        StoreRefusal::TooManyPaths => SET_TOO_MANY_PATHS,
        StoreRefusal::RateExceeded => SET_RATE_EXCEEDED,
        StoreRefusal::VersionsSpent => SET_VERSIONS_SPENT,
    }
}

/// The number of a refusal of a call.
pub(crate) fn call_number(why: CallRefusal) -> i32
    ensures { result ≡ pos (32 + call_refusal_number why) }
{
    match why {
        CallRefusal::QueueFull => CALL_QUEUE_FULL,
        CallRefusal::BodyTooLarge => CALL_BODY_TOO_LARGE,
        CallRefusal::BadPath => CALL_BAD_PATH,
        CallRefusal::Memory => CALL_MEMORY,
        CallRefusal::WatchesFull => CALL_WATCHES_FULL,
        CallRefusal::CallsSpent => CALL_CALLS_SPENT,
    }
}

/// The number of a refusal of a cancel.
pub(crate) fn cancel_number(why: CancelRefusal) -> i32
    ensures { result ≡ pos (56 + cancel_refusal_number why) }
{
    match why {
        CancelRefusal::Unknown => CANCEL_UNKNOWN,
        CancelRefusal::QueueFull => CANCEL_QUEUE_FULL,
    }
}

/// The number of what a datagram would be.
pub(crate) fn would_number(would: Would) -> i32
    ensures { result ≡ pos (64 + would_number_lem would) }
{
    match would {
        Would::Ignored => WOULD_IGNORE,
        Would::Rejected => WOULD_REJECT,
        Would::Repeated => WOULD_REPEAT,
        Would::Taken => WOULD_TAKE,
        Would::NoPlace => WOULD_NO_PLACE,
        Would::NoId => WOULD_NO_ID,
        Would::Acknowledges => WOULD_ACKNOWLEDGE,
        Would::Resets => WOULD_RESET,
    }
}

/// The number of a fault.
pub(crate) fn fault_number(reason: Reason) -> i32
    ensures { result ≡ pos (80 + reason_number reason) }
{
    match reason {
        Reason::Short => FAULT_SHORT,
        Reason::Version => FAULT_VERSION,
        Reason::TokenLength => FAULT_TOKEN_LENGTH,
        Reason::TokenCut => FAULT_TOKEN_CUT,
        Reason::EmptyNotBare => FAULT_EMPTY_NOT_BARE,
        Reason::DeltaReserved => FAULT_DELTA_RESERVED,
        Reason::LengthReserved => FAULT_LENGTH_RESERVED,
        Reason::OptionCut => FAULT_OPTION_CUT,
        Reason::NumberTooLarge => FAULT_NUMBER_TOO_LARGE,
        Reason::NoPayload => FAULT_NO_PAYLOAD,
    }
}
