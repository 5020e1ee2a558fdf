//! Deduplication: what is remembered of the messages that came (RFC 7252, section 4.5).
mod entries;
mod log;
mod pages;

ghost use Rattle.std.specs.Prelude.{◌≡◌, ◌<◌, ◌≤◌, ◌+◌, ◌++◌, [], true, false, nat_le, filter, length, Some, None};
ghost use Rattle.std.specs.Prelude.{is_some, option_to_list, if◌then◌else◌, OnOk};
ghost use Rattle.std.specs.Option.{option_map, option_and_then, option_copied};
ghost use Rattle.coap_layer.specs.Machine.State.{is_live, is_full, is_remembered, reply_of};
ghost use Rattle.coap_layer.specs.Machine.Entries.{AreLive, IsUpTo, arrivals_in, live_of, same_key, storing};
ghost use Rattle.coap_layer.specs.Machine.Keys.{packed};
ghost use Rattle.coap_types.specs.declared.transmission.TheConstants.{EXCHANGE_LIFETIME_MS as exchange_lifetime};

use crate::dedup::entries::{is_passed_at, passed_by};
use crate::dedup::log::Log;
use coap_types::transmission::EXCHANGE_LIFETIME_MS;
use coap_types::{Endpoint, Id, MESSAGE_IDS, Moment, Remembered};
use std::alloc::{AllocError, Allocator};
use std::hash::{BuildHasher, Hash, Hasher};
use std::marker::Model;

// How many UDP ports there are, and how many Message IDs: both have 16 bits (RFC 768; RFC 7252, section 3).
const PORTS: u64 = 1 << 16;

const IDS: u64 = MESSAGE_IDS as u64;

/// What tells messages apart: where one came from, and its Message ID (RFC 7252, section 4.4).
#[derive(Clone, Copy, PartialEq, Eq, Drop)]
pub(crate) struct Key {
    pub(crate) from: Endpoint,
    pub(crate) id: Id,
}

// A hasher takes one number of 64 bits at once, but each field by itself.
impl Hash for Key {
    ghost use Rattle.std.specs.Hash.{u64 as one_u64};
    ghost use Rattle.std.specs.Cmp.Rules.{hashing};
    ghost use Rattle.std.proofs.Common.{rules};

    ghost hash_input = { λ k. one_u64 (packed k) };

    ghost respects_eq = { Prim.search (hashing, rules) };

    fn hash<H: Hasher>(&self, state: &mut H) {
        state.write_u64(self.packed());
    }
}

impl Key {
    // The address, the port and the Message ID as one number: no two keys have the same.
    fn packed(&self) -> u64
        ensures { result ≡ packed self.now }
    {
        let address = u32::from_be_bytes(self.from.ip) as u64;
        (address * PORTS + self.from.port as u64) * IDS + self.id.0 as u64
    }

    // Whether they are the same.
    fn is_of(&self, other: Key) -> bool
        ensures { result ≡ same_key self.now other }
    {
        self.from == other.from && self.id == other.id
    }
}

/// What is kept of a message that was handed up, and the reply to it (RFC 7252, section 4.5).
#[derive(Drop)]
pub(crate) struct Kept<A: Allocator + Copy> {
    /// The moment of its first arrival.
    pub(crate) at: Moment,
    /// It was Confirmable: its reply is stored.
    pub(crate) con: bool,
    pub(crate) reply: Option<Vec<u8, A>>,
}

/// The messages that are remembered, in the order of their first arrival. That of the last input is
/// kept apart from the others, until the next input: so it can be taken back.
#[derive(Drop)]
pub(crate) struct Memory<A: Allocator + Copy, S: BuildHasher> {
    settled: Log<Key, Kept<A>, A, S>,
    newest: Option<(Key, Kept<A>)>,
}

impl<A: Allocator + Copy, S: BuildHasher> Model for Memory<A, S> {
    ghost use Rattle.std.specs.Option.{option_map};
    ghost use Rattle.std.specs.List.Sorted.{IsNonDecreasingBy};
    ghost use Rattle.coap_layer.specs.Machine.Entries.{Memory, IsApart, arrived_as, arrivals_as};

    ghost Value = { Memory };

    ghost view = { λ m. record {
      settled = arrivals_as m.settled.entries;
      newest = option_map arrived_as m.newest;
      spare = m.settled.spare;
    } };

    ghost invariant = { λ m. IsNonDecreasingBy (λ e. e.1.at.0) m.settled.entries
        × IsApart (option_map arrived_as m.newest) (arrivals_as m.settled.entries) m.settled.spare };
}

// Whether it is still remembered.
fn is_live<A: Allocator + Copy>(kept: &Kept<A>, now: Moment) -> bool
    ensures { result ≡ nat_le now.0 (kept.now.at.0 + exchange_lifetime) }
{
    now.since(kept.at) <= EXCHANGE_LIFETIME_MS
}

// The same, if it is still remembered.
fn while_live<A: Allocator + Copy>(kept: Option<&Kept<A>>, now: Moment) -> Option<&Kept<A>>
    ensures { option_copied result ≡ live_of now.0 (option_copied kept.entry) }
{
    let kept = kept?;
    if is_live(kept, now) { Some(kept) } else { None }
}

// The reply as it is stored: that to a Confirmable message is.
fn stored<A: Allocator + Copy>(con: bool, reply: Vec<u8, A>) -> Option<Vec<u8, A>>
    ensures { option_map (λ v. v.items) result ≡ (if con then Some reply.items else None) }
{
    if con { Some(reply) } else { None }
}

impl<A: Allocator + Copy, S: BuildHasher> Memory<A, S> {
    /// Nothing is remembered. It takes no memory.
    pub(crate) fn with_hasher(alloc: A, hasher: S, most: Remembered) -> Memory<A, S>
        ensures settled { result.settled ≡ [] }
        ensures newest { result.newest ≡ None }
    {
        Memory {
            settled: Log::new(alloc, hasher, most.get()),
            newest: None,
        }
    }

    // What is settled of the message of this key, if it is still remembered.
    fn find(&self, now: Moment, key: Key) -> Option<&Kept<A>>
        ensures there { is_some result ≡ is_remembered now.0 key.from key.id.0 self.now.settled }
        ensures reply { option_and_then (λ k.
            option_map (λ v. v.items) k.reply) (option_copied result)
            ≡ reply_of now.0 key.from key.id.0 self.now.settled }
    {
        while_live(self.settled.find(key), now)
    }

    // The newest message, if it is of this key and still remembered.
    fn find_newest(&self, now: Moment, key: Key) -> Option<&Kept<A>>
        ensures there { is_some result ≡ is_remembered now.0 key.from key.id.0 (option_to_list self.now.newest) }
        ensures reply { option_and_then (λ k.
            option_map (λ v. v.items) k.reply) (option_copied result)
            ≡ reply_of now.0 key.from key.id.0 (option_to_list self.now.newest) }
    {
        if let Some((newest, kept)) = &self.newest {
            if newest.is_of(key) {
                return while_live(Some(kept), now);
            }
        }
        None
    }

    /// Whether a message from there with this Message ID is remembered.
    pub(crate) fn is_remembered(&self, now: Moment, from: Endpoint, id: Id) -> bool
        ensures { result ≡ is_remembered now.0 from id.0 (arrivals_in self.now) }
    {
        let key = Key { from, id };
        self.find(now, key).is_some() || self.find_newest(now, key).is_some()
    }

    /// The reply that is stored for the message from there with this Message ID.
    pub(crate) fn stored_reply(&self, now: Moment, from: Endpoint, id: Id) -> Option<&Vec<u8, A>>
        ensures { option_map (λ v. v.now.items) result ≡ reply_of now.0 from id.0 (arrivals_in self.now) }
    {
        let key = Key { from, id };
        match self.find(now, key) {
            Some(kept) => kept.reply.as_ref(),
            None => match self.find_newest(now, key) {
                Some(kept) => kept.reply.as_ref(),
                None => None,
            },
        }
    }

    // How many of the newest, 0 or 1, are still remembered.
    fn live_newest(&self, now: Moment) -> usize
        ensures { result ≡ length (filter (is_live now.0) (option_to_list self.now.newest)) }
    {
        if let Some((_, kept)) = &self.newest {
            if is_live(kept, now) {
                return 1;
            }
        }
        0
    }

    /// Whether no further message can be remembered.
    pub(crate) fn is_full(&self, now: Moment, most: Remembered) -> bool
        ensures { result ≡ is_full most now.0 (arrivals_in self.now) }
    {
        let newest = self.live_newest(now);
        let settled = self.settled.len();
        // Of those that are settled, so many have to be remembered still: the last ones.
        let others = most.get() - newest;
        others <= settled && !is_passed_at(&self.settled, settled - others, now)
    }

    /// How many messages are remembered.
    pub(crate) fn remembered(&self, now: Moment) -> usize
        ensures { result ≡ length (filter (is_live now.0) (arrivals_in self.now)) }
    {
        let passed = passed_by(&self.settled, now);
        self.settled.len() - passed + self.live_newest(now)
    }

    /// Makes room for the newest message, and for one after it.
    pub(crate) fn reserve(&mut self) -> Result<(), AllocError>
        ensures settled { self.new.settled ≡ self.old.settled }
        ensures newest { self.new.newest ≡ self.old.newest }
        ensures spare { self.old.spare ≤ self.new.spare }
        ensures ok { OnOk result (2 ≤ self.new.spare) }
    {
        self.settled.reserve()
    }

    // Lets go of what is settled and no longer remembered.
    fn forget(&mut self, now: Moment)
        ensures settled { self.new.settled ≡ filter (is_live now.0) self.old.settled }
        ensures newest { self.new.newest ≡ self.old.newest }
        ensures spare { self.old.spare ≤ self.new.spare }
    {
        let passed = passed_by(&self.settled, now);
        self.settled.pass(passed);
        self.settled.let_go();
    }

    // Puts the newest message to the others, if it is still remembered.
    fn settle_newest(&mut self, now: Moment)
        requires live { AreLive now.0 self.old.settled }
        requires up_to { IsUpTo now.0 (option_to_list self.old.newest) }
        ensures settled { self.new.settled ≡ self.old.settled ++ filter (is_live now.0)
            (option_to_list self.old.newest) }
        ensures newest { self.new.newest ≡ None }
        ensures spare { self.old.spare ≤ self.new.spare + 1 }
    {
        if let Some((key, kept)) = self.newest.take() {
            if is_live(&kept, now) {
                self.settled.push(key, kept);
            }
        }
    }

    /// Lets go of the messages that are no longer remembered, and puts the newest to the others.
    pub(crate) fn settle(&mut self, now: Moment)
        requires up_to { IsUpTo now.0 (arrivals_in self.old) }
        ensures settled { self.new.settled ≡ filter (is_live now.0) (arrivals_in self.old) }
        ensures newest { self.new.newest ≡ None }
        ensures spare { self.old.spare ≤ self.new.spare + 1 }
    {
        self.forget(now);
        self.settle_newest(now);
    }

    /// Remembers one more message, for which there is room.
    pub(crate) fn remember(&mut self, at: Moment, from: Endpoint, id: Id, con: bool)
        requires spare { 0 < self.old.spare }
        requires up_to { IsUpTo at.0 self.old.settled }
        requires unknown { is_remembered at.0 from id.0 self.old.settled ≡ false }
        ensures settled { self.new.settled ≡ self.old.settled }
        ensures newest { self.new.newest ≡ Some
            (record { from = from; id = id.0; at = at.0; con = con; reply = None }) }
        ensures spare { self.new.spare ≡ self.old.spare }
    {
        let kept = Kept {
            at,
            con,
            reply: None,
        };
        let key = Key { from, id };
        self.newest = Some((key, kept));
    }

    /// Stores the reply to the newest message, if it is that from there with this Message ID.
    pub(crate) fn store_reply(&mut self, to: Endpoint, id: Id, reply: Vec<u8, A>)
        ensures settled { self.new.settled ≡ self.old.settled }
        ensures newest { self.new.newest ≡ option_map (storing to id.0 reply.items) self.old.newest }
        ensures spare { self.new.spare ≡ self.old.spare }
    {
        if let Some((key, kept)) = &mut self.newest {
            if to == key.from && id.0 == key.id.0 {
                kept.reply = stored(kept.con, reply);
            }
        }
    }

    /// Takes back the newest message.
    pub(crate) fn forget_newest(&mut self)
        ensures settled { self.new.settled ≡ self.old.settled }
        ensures newest { self.new.newest ≡ None }
    {
        self.newest = None;
    }
}
