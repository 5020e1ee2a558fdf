//! What C is told of what came.
ghost use Rattle.std.specs.Prelude.{◌≡◌};
ghost use Rattle.knifesilver_exchange.specs.Asking.{Carries, CarriesNone, IsTold};

use crate::crossing::{KsAnswer, short_bytes};
use crate::numbers::{NO_RESPONSE, NOTIFICATION, RESET, RESPONSE, TIMEOUT};
use coap_codec::View;
use coap_exchange::Event;

// A response.
fn response(kind: u8, message: &View<'_>) -> KsAnswer
    ensures kind { result.kind ≡ kind }
    ensures carries { Carries result message.now }
{
    let (token, token_len) = short_bytes(message.token());
    KsAnswer {
        payload_len: message.payload().len(),
        kind,
        code: message.code().0,
        token_len,
        token,
    }
}

// What is no response.
fn alone(kind: u8) -> KsAnswer
    ensures kind { result.kind ≡ kind }
    ensures carries { CarriesNone result }
{
    KsAnswer {
        payload_len: 0,
        kind,
        code: 0,
        token_len: 0,
        token: [0; 8],
    }
}

/// What C is told of it.
pub(crate) fn told(event: &Event<'_>) -> KsAnswer
    ensures { IsTold result event.now }
{
    match event {
        Event::Answer(message) => response(RESPONSE, message),
        Event::Notice(message) => response(NOTIFICATION, message),
        Event::Timeout => alone(TIMEOUT),
        Event::Reset => alone(RESET),
        Event::NoResponse => alone(NO_RESPONSE),
    }
}
