//! A body that is whole is told.
ghost use Rattle.std.specs.Prelude.{◌≡◌, ◌<◌, pos, length, None};
ghost use Rattle.knifesilver_exchange.specs.Answers.{IsRefused};
ghost use Rattle.knifesilver_exchange.specs.Moves.{IsBody};

use crate::answers::{DONE, NOTHING, SMALL_ROOM};
use crate::crossing::copy_out;
use bytes::Bytes;

/// Tells the body that is whole, if there is one.
pub(crate) fn give_body(whole: &Option<Bytes>, room: &mut [u8], len: &mut usize) -> i32
    ensures told { result ≡ pos 1 → IsBody whole.now room.new len.new }
    ensures none { result ≡ pos 0 → whole.now ≡ None }
    ensures small { result ≡ SMALL_ROOM → length room.old < len.new }
    ensures why { IsRefused result → result ≡ SMALL_ROOM }
{
    match whole {
        None => NOTHING,
        Some(body) => {
            let bytes = body.as_slice();
            *len = bytes.len();
            if copy_out(room, bytes) {
                DONE
            } else {
                SMALL_ROOM
            }
        }
    }
}
