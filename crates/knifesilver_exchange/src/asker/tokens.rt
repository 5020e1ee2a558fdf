//! The tokens of observations, which a client keeps (RFC 7641, section 3.2).
ghost use Rattle.std.specs.Prelude.{◌≡◌, ◌≢◌, ◌<◌, ◌⊎◌, length, Some};
ghost use Rattle.knifesilver_exchange.specs.Answers.{IsAnswered, IsRefused};
ghost use Rattle.knifesilver_exchange.specs.AskerHeld.{AskerMade, HoldsAsker, brought};
ghost use Rattle.knifesilver_exchange.specs.Asking.{IsKeep, IsRelease};

use crate::answers::{BAD_ARGUMENT, NOT_LIVE, told};
use crate::handle::KsHandle;
use crate::held::Held;
use coap_types::Token;
use std::alloc::Global;

// Keeps a token.
fn keep(held: &mut Held, token: &Token) -> i32
    ensures led { IsAnswered result → AskerMade (IsKeep token.now result) (Some held.old) (Some held.new) }
    ensures kept { IsRefused result → held.new ≡ held.old }
    ensures beside { brought (Some held.new) ≡ brought (Some held.old) }
    ensures live { HoldsAsker (Some held.old) → result ≢ NOT_LIVE }
    ensures why { IsRefused result → result ≡ NOT_LIVE }
{
    match held {
        Held::Asker(client) => told(client.asker.keep(token)),
        _ => NOT_LIVE,
    }
}

/// Keeps the token of an observation, so that its notifications are told: 1, or 0 where 16 others are kept.
#[unsafe(no_mangle)]
pub extern "C" fn ks_asker_keep(alloc: Global, handle: &mut KsHandle, token: &[u8]) -> i32
    // A token that is kept makes just that call of the exchanges, and the answer says whether it is kept.
    ensures led { IsAnswered result → AskerMade (IsKeep token.now result) handle.old.held handle.new.held }
    // To keep a token, where that is refused, leaves the very client in the handle.
    ensures kept { IsRefused result → handle.new.held ≡ handle.old.held }
    // To keep a token leaves what the last feed or tick brought.
    ensures beside { brought handle.new.held ≡ brought handle.old.held }
    // To keep a token is refused for one of over 8 bytes or for want of a client in the handle, and for nothing else.
    ensures why { IsRefused result → ((result ≡ BAD_ARGUMENT) × (8 < length token.now)) ⊎ (result ≡ NOT_LIVE) }
    // `keep` never says of a handle with an asker that it holds none.
    ensures live { HoldsAsker handle.old.held → result ≢ NOT_LIVE }
{
    let Some(token) = Token::new(token) else {
        return BAD_ARGUMENT;
    };
    let Some(mut held) = handle.take(alloc) else {
        return NOT_LIVE;
    };
    let answer = keep(held.as_mut(), &token);
    handle.put(held);
    answer
}

// Keeps a token no more.
fn release(held: &mut Held, token: &Token) -> i32
    ensures led { IsAnswered result → AskerMade (IsRelease token.now result) (Some held.old) (Some held.new) }
    ensures kept { IsRefused result → held.new ≡ held.old }
    ensures beside { brought (Some held.new) ≡ brought (Some held.old) }
    ensures live { HoldsAsker (Some held.old) → result ≢ NOT_LIVE }
    ensures why { IsRefused result → result ≡ NOT_LIVE }
{
    match held {
        Held::Asker(client) => told(client.asker.release(token)),
        _ => NOT_LIVE,
    }
}

/// Keeps a token no more, so that its notifications are rejected: 1, or 0 where it was not kept.
#[unsafe(no_mangle)]
pub extern "C" fn ks_asker_release(alloc: Global, handle: &mut KsHandle, token: &[u8]) -> i32
    // A token that is released makes just that call of the exchanges, and the answer says whether it was kept.
    ensures led { IsAnswered result → AskerMade (IsRelease token.now result) handle.old.held handle.new.held }
    // To release a token, where that is refused, leaves the very client in the handle.
    ensures kept { IsRefused result → handle.new.held ≡ handle.old.held }
    // To release a token leaves what the last feed or tick brought.
    ensures beside { brought handle.new.held ≡ brought handle.old.held }
    // To release a token is refused for one of over 8 bytes or for want of a client in the handle, and for nothing
    // else.
    ensures why { IsRefused result → ((result ≡ BAD_ARGUMENT) × (8 < length token.now)) ⊎ (result ≡ NOT_LIVE) }
    // `release` never says of a handle with an asker that it holds none.
    ensures live { HoldsAsker handle.old.held → result ≢ NOT_LIVE }
{
    let Some(token) = Token::new(token) else {
        return BAD_ARGUMENT;
    };
    let Some(mut held) = handle.take(alloc) else {
        return NOT_LIVE;
    };
    let answer = release(held.as_mut(), &token);
    handle.put(held);
    answer
}
