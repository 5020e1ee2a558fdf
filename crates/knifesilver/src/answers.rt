//! What a call answers: 0 or 1 where it was carried out, the number of a refusal where the end refused (`numbers`), and one
//! of these below 0 where nothing was done. Want of memory is `NO_MEMORY` in each call.

/// It was carried out, or there is nothing.
pub(crate) const NOTHING: i32 = 0;
/// There is something, and it is given.
pub(crate) const DONE: i32 = 1;
/// A datagram is longer than the room, though the room has as many bytes as a message takes at most.
pub(crate) const TOO_LONG: i32 = 2;
/// The handle holds no such end.
pub(crate) const NOT_LIVE: i32 = -1;
/// An allocation was refused.
pub(crate) const NO_MEMORY: i32 = -2;
/// A text that is no path.
pub(crate) const BAD_PATH: i32 = -3;
/// The room that was lent is too small; nothing was taken.
pub(crate) const SMALL_ROOM: i32 = -4;
/// A method, an entity-tag, a number of entity-tags, an error, a key of a peer or a number of places that is none.
pub(crate) const BAD_ARGUMENT: i32 = -5;
/// The size of a configuration is none.
pub(crate) const BAD_SIZE: i32 = -6;
/// No block has so many bytes.
pub(crate) const BAD_BLOCK_SIZE: i32 = -7;
/// No body is limited so.
pub(crate) const BAD_BODY_LIMIT: i32 = -8;
/// Another number of messages is remembered.
pub(crate) const BAD_REMEMBERED: i32 = -9;
/// No window takes so many changes.
pub(crate) const BAD_CHANGES: i32 = -10;
/// No versions begin after this one.
pub(crate) const BAD_BASE: i32 = -11;
/// What was taken isn't handed out yet.
pub(crate) const UNTOLD: i32 = -12;

// C has these numbers in its header.
const _: () = prove!(NOTHING == 0 && DONE == 1 && TOO_LONG == 2);

const _: () = prove!(
    NOT_LIVE == -1 && NO_MEMORY == -2 && BAD_PATH == -3 && SMALL_ROOM == -4 && BAD_ARGUMENT == -5
);

const _: () = prove!(
    BAD_SIZE == -6 && BAD_BLOCK_SIZE == -7 && BAD_BODY_LIMIT == -8 && BAD_REMEMBERED == -9
);

const _: () = prove!(BAD_CHANGES == -10 && BAD_BASE == -11 && UNTOLD == -12);
