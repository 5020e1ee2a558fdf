//! What the last input of a server ended: a response or a notification that was not acknowledged, or was rejected.
ghost use Rattle.std.specs.Prelude.{◌≡◌, ◌≢◌};
ghost use Rattle.knifesilver.specs.Answers.{IsAnswered, IsRefused};
ghost use Rattle.knifesilver.specs.Endings.{TellsEnded};
ghost use Rattle.knifesilver.specs.ServerHeld.{HoldsServer, HoldsServerIn, IsServer, IsServerIn};

use crate::answers::{DONE, NOT_LIVE, NOTHING};
use crate::crossing::{KsAddress, address, token_of};
use crate::handle::KsHandle;
use crate::held::Held;
use std::alloc::Global;

/// C's `ks_ended`: a separate response or a notification that a Reset or a failure ended.
#[repr(C)]
#[derive(Clone, Copy)]
pub struct KsEnded {
    /// Where it went.
    pub to: KsAddress,
    /// Whether it carried Observe.
    pub observe: bool,
    /// How many bytes of the token count.
    pub token_len: u8,
    /// Its token.
    pub token: [u8; 8],
}

// Tells what ended.
fn tell(held: &Held, told: &mut KsEnded) -> i32
    ensures ended { IsAnswered result → IsServerIn (TellsEnded result told.new) held.now }
    ensures live { IsServer held.now → result ≢ NOT_LIVE }
    ensures why { IsRefused result → result ≡ NOT_LIVE }
{
    match held {
        Held::Server(server) => match server.server.ended() {
            Some(ended) => {
                let (token, token_len) = token_of(&ended.token);
                *told = KsEnded {
                    to: address(ended.to),
                    observe: ended.observe,
                    token_len,
                    token,
                };
                DONE
            }
            None => NOTHING,
        },
        Held::Client(_) | Held::Names(_) => NOT_LIVE,
    }
}

/// What the last feed or tick ended by a Reset or for want of an acknowledgement: 1, or 0 where it ended nothing.
#[unsafe(no_mangle)]
pub extern "C" fn ks_server_ended(alloc: Global, handle: &mut KsHandle, ended: &mut KsEnded) -> i32
    // What is told to have ended is what the last feed or tick of the server in the handle ended.
    ensures ended { IsAnswered result → HoldsServerIn (TellsEnded result ended.new) handle.old.held }
    // To ask a server what ended leaves the very server in the handle.
    ensures kept { handle.new.held ≡ handle.old.held }
    // `ks_server_ended` never says of a handle with a server that it holds none.
    ensures live { HoldsServer handle.old.held → result ≢ NOT_LIVE }
    // To ask a server what ended is refused for want of a server in the handle, and for nothing else.
    ensures why { IsRefused result → result ≡ NOT_LIVE }
{
    let Some(held) = handle.take(alloc) else {
        return NOT_LIVE;
    };
    let answer = tell(held.as_ref(), ended);
    handle.put(held);
    answer
}
