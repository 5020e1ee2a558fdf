//! What a call answers: 0 or 1 where it was carried out, the number of a refusal (`numbers`), and one of these below 0
//! where nothing was done.

ghost use Rattle.std.specs.Prelude.{◌≡◌};
ghost use Rattle.knifesilver_exchange.specs.Answers.{told};

/// It was carried out, or there is nothing.
pub(crate) const NOTHING: i32 = 0;
/// There is something, and it is given.
pub(crate) const DONE: i32 = 1;
/// A datagram is longer than the room, though the room has as many bytes as a message takes at most.
pub(crate) const TOO_LONG: i32 = 2;
/// The handle holds no server.
pub(crate) const NOT_LIVE: i32 = -1;
/// An allocation was refused.
pub(crate) const NO_MEMORY: i32 = -2;
/// The room that was lent is too small; nothing was taken.
pub(crate) const SMALL_ROOM: i32 = -4;
/// A request, a token or a message that is none.
pub(crate) const BAD_ARGUMENT: i32 = -5;
/// A path of over 16 segments, or with one of over 255 bytes.
pub(crate) const BAD_PATH: i32 = -3;
/// No block has that size.
pub(crate) const BAD_BLOCK_SIZE: i32 = -7;
/// No body may be that long.
pub(crate) const BAD_BODY_LIMIT: i32 = -8;
/// Another number of messages is remembered.
pub(crate) const BAD_REMEMBERED: i32 = -9;

// C has these numbers in its header.
const _: () = prove!(NOTHING == 0 && DONE == 1 && TOO_LONG == 2);

const _: () = prove!(NOT_LIVE == -1 && NO_MEMORY == -2 && SMALL_ROOM == -4 && BAD_ARGUMENT == -5);

const _: () = prove!(BAD_PATH == -3 && BAD_BLOCK_SIZE == -7 && BAD_BODY_LIMIT == -8);

const _: () = prove!(BAD_REMEMBERED == -9);

/// 1 where there was something, and else 0.
pub(crate) fn told(did: bool) -> i32
    ensures { result ≡ told did }
{
    if did { DONE } else { NOTHING }
}
