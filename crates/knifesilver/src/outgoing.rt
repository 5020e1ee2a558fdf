//! The datagrams that an end hands out.
ghost use Rattle.std.specs.Prelude.{◌≡◌, ◌≢◌, ◌≤◌, is_some, length};
ghost use Rattle.knifesilver.specs.Answers.{IsRefused};
ghost use Rattle.knifesilver.specs.Outgoing.{OutAnswers};
ghost use Rattle.knifesilver.specs.ServerCalls.{is_given};

use crate::answers::{DONE, NOT_LIVE, NOTHING, TOO_LONG, UNTOLD};
use crate::crossing::{KsAddress, address, copy_out};
use coap_layer::Datagram;
use coap_types::limits::MAX_MESSAGE_LEN;
use std::alloc::Global;

/// Tells the datagram that is to be sent next, in a room for any.
pub(crate) fn give(
    next: Option<Datagram<Global>>,
    to: &mut KsAddress,
    room: &mut [u8],
    len: &mut usize,
) -> i32
    requires room { MAX_MESSAGE_LEN ≤ length room.old }
    ensures told { OutAnswers result to.new room.new len.new next }
    ensures answered { IsRefused result → ⊥ }
    ensures live { result ≢ NOT_LIVE }
    ensures given { is_given result ≡ is_some next }
    ensures untold { result ≢ UNTOLD }
{
    match next {
        Some(datagram) => {
            *to = address(datagram.to());
            *len = datagram.bytes().len();
            if copy_out(room, datagram.bytes()) {
                DONE
            } else {
                TOO_LONG
            }
        }
        None => NOTHING,
    }
}
