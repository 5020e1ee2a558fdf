//! The key of a peer: the bytes that tell it apart.
ghost use Rattle.std.specs.Prelude.{◌≡◌, ◌≤◌, ℕ, List, length, true};
ghost use Rattle.std.specs.Option.{SomeIff};
ghost use Rattle.knifesilver.specs.PeerKeys.{IsKey, KeyAnswers, bytes_of, peer_key, same_key};
ghost use Rattle.knifesilver.specs.declared.names.peer_key.PeerKey.{PeerKey as PeerKeySpec};

use crate::answers::{DONE, NOTHING};

/// How many bytes a key has at most.
pub(crate) const KEY_ROOM: usize = 60;

const _: () = prove!(KEY_ROOM == 60);

/// The key of a peer. The bytes behind those that count are 0.
#[derive(Clone, Copy, Debug, PartialEq, Eq, Hash)]
pub struct PeerKey {
    /// How many bytes count.
    pub len: u8,
    /// The bytes.
    pub bytes: [u8; KEY_ROOM],
}

/// The key of these bytes; None where they are none, or too many.
pub(crate) fn key_of(bytes: &[u8]) -> Option<PeerKey>
    ensures { SomeIff result (IsKey bytes.now) (peer_key bytes.now) }
{
    let len = bytes.len();
    if len < 1 || KEY_ROOM < len {
        return None;
    }
    let mut field = [0; KEY_ROOM];
    field[..len].copy_from_slice(bytes);
    Some(PeerKey {
        len: len as u8,
        bytes: field,
    })
}

/// What holds of all keys. It does nothing.
pub(crate) fn key_law()
    // The bytes of a key are those that it was made of.
    ensures there_and_back { (bytes : List ℕ) → IsKey bytes → bytes_of (peer_key bytes) ≡ bytes }
    // Keys that are the same for a table are equal, so that they have the same bytes.
    ensures same { (key other : PeerKeySpec) → same_key key other ≡ true → key ≡ other }
{}

/// Tells a key, in a room for any.
pub(crate) fn give(key: Option<PeerKey>, room: &mut [u8], len: &mut usize) -> i32
    requires room { KEY_ROOM ≤ length room.old }
    ensures { KeyAnswers result room.new len.new key }
{
    match key {
        Some(key) => {
            *len = usize::from(key.len).min(KEY_ROOM);
            room[..*len].copy_from_slice(&key.bytes[..*len]);
            DONE
        }
        None => NOTHING,
    }
}
