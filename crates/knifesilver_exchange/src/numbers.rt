//! The numbers of refusals, none of which is one of another call's.
ghost use Rattle.std.specs.Prelude.{◌≡◌, pos};
ghost use Rattle.knifesilver_exchange.specs.Numbers.{add_number, answer_number, ask_number, assembly_number};
ghost use Rattle.knifesilver_exchange.specs.Numbers.{fetch_number, notify_number};

use crate::answers::{NO_MEMORY, SMALL_ROOM};
use coap_block::{AssemblyRefusal, FetchRefusal};
use coap_exchange::AskRefusal;
use coap_handlers::{AnswerRefusal, NotifyRefusal};
use coap_options::AddRefusal;

// An answer that is not sent.
const ANSWER_NOT_ASKED: i32 = 112;

const ANSWER_GIVEN: i32 = 113;

const ANSWER_DEFERRALS_FULL: i32 = 114;

const ANSWER_NOT_READY: i32 = 115;

const ANSWER_NOT_CONFIRMABLE: i32 = 118;

const ANSWER_BAD_RESPONSE: i32 = 119;

// A request that is not sent.
const ASK_RUNNING: i32 = 116;

const ASK_TOKENS_SPENT: i32 = 117;

const ASK_NO_IDS: i32 = 122;

/// A code that is that of no method, or a message of over 1,152 bytes.
pub(crate) const ASK_BAD_REQUEST: i32 = 123;

// A part of a body that is not taken.
const FETCH_BAD_BLOCK: i32 = 124;

const FETCH_NO_TAG: i32 = 125;

const FETCH_TOO_LARGE: i32 = 126;

const FETCH_CHANGED: i32 = 127;

// A block of an upload that is not taken.
const ASSEMBLY_BAD_REQUEST: i32 = 128;

const ASSEMBLY_INCOMPLETE: i32 = 129;

const ASSEMBLY_TOO_LARGE: i32 = 130;

const ASSEMBLY_FULL: i32 = 131;

// What came of a request.

/// Its answer.
pub(crate) const RESPONSE: u8 = 16;
/// A response with a token that is kept.
pub(crate) const NOTIFICATION: u8 = 17;
/// It was not acknowledged.
pub(crate) const TIMEOUT: u8 = 8;
/// It was rejected.
pub(crate) const RESET: u8 = 9;
/// It was acknowledged, and no response came.
pub(crate) const NO_RESPONSE: u8 = 10;

// C has these numbers in its headers.
const _: () = prove!(ASK_BAD_REQUEST == 123 && RESPONSE == 16 && NOTIFICATION == 17);

const _: () = prove!(TIMEOUT == 8 && RESET == 9 && NO_RESPONSE == 10);

// An option that is not written.
const OPTION_ORDER: i32 = 120;

const OPTION_TOO_LONG: i32 = 121;

/// The number of a refusal of an answer.
pub(crate) fn answer_number(why: AnswerRefusal) -> i32
    ensures { result ≡ pos (answer_number why) }
{
    match why {
        AnswerRefusal::NotAsked => ANSWER_NOT_ASKED,
        AnswerRefusal::Given => ANSWER_GIVEN,
        AnswerRefusal::DeferralsFull => ANSWER_DEFERRALS_FULL,
        AnswerRefusal::NotReady => ANSWER_NOT_READY,
        AnswerRefusal::NotConfirmable => ANSWER_NOT_CONFIRMABLE,
        AnswerRefusal::BadResponse => ANSWER_BAD_RESPONSE,
    }
}

/// The number of a refusal of a notification.
pub(crate) fn notify_number(why: NotifyRefusal) -> i32
    ensures { result ≡ notify_number why }
{
    match why {
        NotifyRefusal::NotReady => ANSWER_NOT_READY,
        NotifyRefusal::BadResponse => ANSWER_BAD_RESPONSE,
        NotifyRefusal::Memory => NO_MEMORY,
    }
}

/// The number of a refusal of an option.
pub(crate) fn add_number(why: AddRefusal) -> i32
    ensures { result ≡ add_number why }
{
    match why {
        AddRefusal::Order => OPTION_ORDER,
        AddRefusal::TooLong => OPTION_TOO_LONG,
        AddRefusal::NoRoom => SMALL_ROOM,
    }
}

/// The number of a refusal of a request.
pub(crate) fn ask_number(why: AskRefusal) -> i32
    ensures { result ≡ ask_number why }
{
    match why {
        AskRefusal::Running => ASK_RUNNING,
        AskRefusal::NoIds => ASK_NO_IDS,
        AskRefusal::Memory => NO_MEMORY,
        AskRefusal::TokensSpent => ASK_TOKENS_SPENT,
    }
}

/// The number of a refusal of a part.
pub(crate) fn fetch_number(why: FetchRefusal) -> i32
    ensures { result ≡ fetch_number why }
{
    match why {
        FetchRefusal::BadBlock => FETCH_BAD_BLOCK,
        FetchRefusal::NoTag => FETCH_NO_TAG,
        FetchRefusal::TooLarge => FETCH_TOO_LARGE,
        FetchRefusal::Changed => FETCH_CHANGED,
    }
}

/// The number of a refusal of a block.
pub(crate) fn assembly_number(why: AssemblyRefusal) -> i32
    ensures { result ≡ assembly_number why }
{
    match why {
        AssemblyRefusal::BadRequest => ASSEMBLY_BAD_REQUEST,
        AssemblyRefusal::EntityIncomplete => ASSEMBLY_INCOMPLETE,
        AssemblyRefusal::EntityTooLarge => ASSEMBLY_TOO_LARGE,
        AssemblyRefusal::Unavailable => ASSEMBLY_FULL,
    }
}
