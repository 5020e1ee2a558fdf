//! The three tables of names, each changed by itself.
ghost use Rattle.std.specs.Prelude.{◌≡◌, ◌<◌, ◌≤◌, ◌+◌, ◌-◌, ◌^◌, length, take, cond, ◌∷◌, true, false, OnOk, OnErr};
ghost use Rattle.std.specs.Prelude.{Err, Some, None};
ghost use Rattle.std.specs.Option.{option_map};
ghost use Rattle.std.specs.Map.{lookup, remove_entry};
ghost use Rattle.indexmap.specs.IndexMap.{spare};
ghost use Rattle.lru.specs.LruCache.{last_entry};
ghost use Rattle.coap_types.specs.SameEndpoint.{same_endpoint};
ghost use Rattle.coap_types.specs.declared.transmission.TheConstants.{EXCHANGE_LIFETIME_MS as exchange_lifetime};
ghost use Rattle.coap_names.specs.Tables.{touched};
ghost use Rattle.coap_names.specs.declared.names.Idle.{Idle};

use crate::names::{Idle, NamesRefusal};
use crate::numbering::NAMES;
use coap_types::transmission::EXCHANGE_LIFETIME_MS;
use coap_types::{Endpoint, Moment};
use indexmap::IndexMap;
use lru::LruCache;
use std::alloc::Allocator;
use std::hash::{BuildHasher, Hash};

/// What is not held of this key goes first, with this moment: its name.
pub(crate) fn touch<K: Eq + Hash + Copy + Drop, S: BuildHasher + Copy + Drop, A: Allocator + Copy>(
    idle: &mut LruCache<K, Idle, S, A>,
    key: K,
    at: Moment,
) -> Option<Endpoint>
    ensures name { result ≡ option_map (λ p. p.name) (lookup (K.eq key) idle.old.entries) }
    ensures entries { (p : Idle) → lookup (K.eq key) idle.old.entries ≡ Some p
        → idle.new.entries ≡ touched (K.eq key) p.name at.0 idle.old.entries }
    ensures none { lookup (K.eq key) idle.old.entries ≡ None → idle.new ≡ idle.old }
    ensures cap { idle.new.cap ≡ idle.old.cap }
{
    let place = idle.get_mut(&key)?;
    place.at = at;
    Some(place.name)
}

/// The name of this key, if it is held.
pub(crate) fn held_name<
    K: Eq + Hash + Copy + Drop,
    S: BuildHasher + Copy + Drop,
    A: Allocator + Copy,
>(held: &IndexMap<K, Endpoint, S, A>, key: K) -> Option<Endpoint>
    ensures { result ≡ lookup (K.eq key) held.now.entries }
{
    match held.get(&key) {
        Some(name) => Some(*name),
        None => None,
    }
}

/// Whether the last of those that are not held may be forgotten: its last datagram came over 247 s ago.
pub(crate) fn is_over<
    K: Eq + Hash + Copy + Drop,
    S: BuildHasher + Copy + Drop,
    A: Allocator + Copy,
>(idle: &LruCache<K, Idle, S, A>, at: Moment) -> bool
    ensures over { result ≡ true → (gone : K × Idle) × (last_entry idle.now.entries ≡ Some gone)
        × (exchange_lifetime < at.0 - gone.1.at.0) }
    ensures live { result ≡ false → (last : K × Idle) → last_entry idle.now.entries ≡ Some last
        → at.0 - last.1.at.0 ≤ exchange_lifetime }
{
    match idle.peek_lru() {
        Some((_, place)) => at.since(place.at) > EXCHANGE_LIFETIME_MS,
        None => false,
    }
}

/// The key of this name.
pub(crate) fn key_at<K: Eq + Hash + Copy + Drop, S: BuildHasher + Copy + Drop, A: Allocator + Copy>(
    keys: &IndexMap<Endpoint, K, S, A>,
    name: &Endpoint,
) -> Option<K>
    ensures { result ≡ lookup (same_endpoint name.now) keys.now.entries }
{
    match keys.get(name) {
        Some(key) => Some(*key),
        None => None,
    }
}

/// The key of this name, which has none from then on.
pub(crate) fn forget_key<
    K: Eq + Hash + Copy + Drop,
    S: BuildHasher + Copy + Drop,
    A: Allocator + Copy,
>(keys: &mut IndexMap<Endpoint, K, S, A>, name: &Endpoint) -> Option<K>
    ensures key { result ≡ lookup (same_endpoint name.now) keys.old.entries }
    ensures keys { (n : Endpoint) → lookup (same_endpoint n) keys.new.entries
        ≡ cond (same_endpoint name.now n) None (lookup (same_endpoint n) keys.old.entries) }
    ensures none { result ≡ None → keys.new.entries ≡ keys.old.entries }
{
    keys.swap_remove(name)
}

/// Takes a key out of those that are not held.
pub(crate) fn take_out<
    K: Eq + Hash + Copy + Drop,
    S: BuildHasher + Copy + Drop,
    A: Allocator + Copy,
>(idle: &mut LruCache<K, Idle, S, A>, key: K)
    ensures entries { idle.new.entries ≡ remove_entry (K.eq key) idle.old.entries }
    ensures cap { idle.new.cap ≡ idle.old.cap }
{
    idle.pop(&key);
}

/// Puts a key to those that are held, for which there is room.
pub(crate) fn put_held<
    K: Eq + Hash + Copy + Drop,
    S: BuildHasher + Copy + Drop,
    A: Allocator + Copy,
>(held: &mut IndexMap<K, Endpoint, S, A>, key: K, name: Endpoint)
    requires { 0 < spare held.old }
    ensures held { (q : K) → lookup (K.eq q) held.new.entries
        ≡ cond (K.eq key q) (Some name) (lookup (K.eq q) held.old.entries) }
    ensures longer { length held.new.entries ≤ length held.old.entries + 1 }
{
    let _ = held.insert(key, name);
}

/// Takes a key out of those that are held.
pub(crate) fn let_go<K: Eq + Hash + Copy + Drop, S: BuildHasher + Copy + Drop, A: Allocator + Copy>(
    held: &mut IndexMap<K, Endpoint, S, A>,
    key: K,
)
    ensures held { (q : K) → lookup (K.eq q) held.new.entries
        ≡ cond (K.eq key q) None (lookup (K.eq q) held.old.entries) }
    ensures longer { length held.new.entries ≤ length held.old.entries }
    ensures fewer { (n : Endpoint) → lookup (K.eq key) held.old.entries ≡ Some n
        → length held.new.entries + 1 ≡ length held.old.entries }
{
    held.swap_remove(&key);
}

/// Forgets the last of those that are not held, and its name.
pub(crate) fn forget_last<
    K: Eq + Hash + Copy + Drop,
    S: BuildHasher + Copy + Drop,
    A: Allocator + Copy,
>(idle: &mut LruCache<K, Idle, S, A>, keys: &mut IndexMap<Endpoint, K, S, A>)
    ensures idle { idle.new.entries ≡ take (length idle.old.entries - 1) idle.old.entries }
    ensures keys { (gone : K × Idle) → last_entry idle.old.entries ≡ Some gone
        → (n : Endpoint) → lookup (same_endpoint n) keys.new.entries
        ≡ cond (same_endpoint gone.1.name n) None (lookup (same_endpoint n) keys.old.entries) }
    ensures spare { spare keys.old ≤ spare keys.new }
    ensures cap { idle.new.cap ≡ idle.old.cap }
{
    if let Some((_, place)) = idle.pop_lru() {
        keys.swap_remove(&place.name);
    }
}

/// Makes room for the key of one more name.
pub(crate) fn make_room<
    K: Eq + Hash + Copy + Drop,
    S: BuildHasher + Copy + Drop,
    A: Allocator + Copy,
>(keys: &mut IndexMap<Endpoint, K, S, A>) -> Result<(), NamesRefusal>
    ensures entries { keys.new.entries ≡ keys.old.entries }
    ensures ok { OnOk result (0 < spare keys.new) }
    ensures err { OnErr result (result ≡ Err NamesRefusal.Memory) }
{
    match keys.reserve(1) {
        Ok(()) => Ok(()),
        Err(_) => Err(NamesRefusal::Memory),
    }
}

/// Gives a name a key, for which there is room.
pub(crate) fn put_key<
    K: Eq + Hash + Copy + Drop,
    S: BuildHasher + Copy + Drop,
    A: Allocator + Copy,
>(keys: &mut IndexMap<Endpoint, K, S, A>, name: Endpoint, key: K)
    requires { 0 < spare keys.old }
    ensures { (n : Endpoint) → lookup (same_endpoint n) keys.new.entries
        ≡ cond (same_endpoint name n) (Some key) (lookup (same_endpoint n) keys.old.entries) }
{
    let _ = keys.insert(name, key);
}

/// Puts a key that has no name first.
pub(crate) fn put_first<
    K: Eq + Hash + Copy + Drop,
    S: BuildHasher + Copy + Drop,
    A: Allocator + Copy,
>(idle: &mut LruCache<K, Idle, S, A>, key: K, place: Idle) -> Result<(), NamesRefusal>
    requires unknown { lookup (K.eq key) idle.old.entries ≡ None }
    requires cap { idle.old.cap ≡ 2 ^ 64 - 1 }
    ensures ok { OnOk result (idle.new.entries ≡ (key, place) ∷ idle.old.entries) }
    ensures cap { idle.new.cap ≡ idle.old.cap }
    ensures err { OnErr result ((result ≡ Err NamesRefusal.Memory) × (idle.new ≡ idle.old)) }
{
    let _held = idle.len();
    match idle.put(key, place) {
        Ok(_) => Ok(()),
        Err(_) => Err(NamesRefusal::Memory),
    }
}

/// One name more was given.
pub(crate) fn count(given: &mut u64)
    requires { given.old < NAMES }
    ensures { given.new ≡ given.old + 1 }
{
    *given += 1;
}
