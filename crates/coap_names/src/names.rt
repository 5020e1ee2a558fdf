//! A table of names, and its calls.
ghost use Rattle.std.specs.Prelude.{◌≡◌, ◌≢◌, ◌<◌, ◌≤◌, ◌-◌, max, length, take, cond, IsTrue, ◌↔◌, IfOk, OnOk, OnErr};
ghost use Rattle.std.specs.Prelude.{IsOk, IsSome, Err, Some, None, is_some, []};
ghost use Rattle.std.specs.Option.{option_copied};
ghost use Rattle.std.specs.Map.{lookup};
ghost use Rattle.lru.specs.LruCache.{last_entry};
ghost use Rattle.coap_types.specs.SameEndpoint.{same_endpoint};
ghost use Rattle.coap_names.specs.Numbered.{names_in};
ghost use Rattle.coap_names.specs.Trace.{NameOf, Sent, Hold, Release, Retire, Did};
ghost use Rattle.coap_names.specs.Tables.{keyed, named, start};
ghost use Rattle.coap_names.specs.Steps.{Step, Comes, Does, Distinct, Gives};
ghost use Rattle.coap_names.specs.Led.{Led, Leads, answer_as};
ghost use Rattle.coap_names.specs.declared.names.Idle.{Idle};

use crate::numbering::{NAMES, Numbering, numbered};
use crate::places::Places;
use crate::tables::{
    count, forget_key, forget_last, held_name, is_over, key_at, let_go, make_room, put_first,
    put_held, put_key, take_out, touch,
};
use coap_types::{Endpoint, Moment};
use indexmap::IndexMap;
use lru::LruCache;
use std::alloc::{AllocError, Allocator};
use std::hash::{BuildHasher, Hash};
use std::marker::Model;
use thiserror::Error;

/// A name that is not held, and the moment of the last datagram from its key or to it.
#[derive(Clone, Copy, Debug, PartialEq, Eq)]
pub struct Idle {
    /// The name.
    pub name: Endpoint,
    /// The moment.
    pub at: Moment,
}

/// Why a key gets no name: its datagram is dropped, which counts as lost.
#[derive(Clone, Copy, Debug, PartialEq, Eq, Error)]
pub enum NamesRefusal {
    /// Each place is taken: by a name that is held, or whose last datagram came in the last 247 s.
    #[error("each place is taken")]
    Full,
    /// All names are used up.
    #[error("all names are used up")]
    Spent,
    /// There is no memory.
    #[error("out of memory")]
    Memory,
}

/// Names for the keys of peers.
///
/// It is handed the key of each datagram that arrives, and says its name. It is handed the name of each datagram that
/// goes out, and says its key. A moment before the last one counts as the last.
#[derive(Drop)]
pub struct Names<K: Eq + Hash + Copy + Drop, S: BuildHasher + Copy + Drop, A: Allocator + Copy> {
    most: Places,
    numbering: Numbering,
    clock: Moment,
    // How many names were given: the number of the next one.
    given: u64,
    // The keys whose names are not held, that of the last datagram first.
    idle: LruCache<K, Idle, S, A>,
    // Those whose names are held.
    held: IndexMap<K, Endpoint, S, A>,
    // The key of each name.
    keys: IndexMap<Endpoint, K, S, A>,
}

impl<K: Eq + Hash + Copy + Drop, S: BuildHasher + Copy + Drop, A: Allocator + Copy> Model
    for Names<K, S, A> {
    ghost use Rattle.std.specs.Prelude.{◌≡◌, ◌-◌, ◌^◌};
    ghost use Rattle.coap_names.specs.Tables.{State};

    ghost Value = { State K };

    ghost view = { λ n. record {
      setup = record { most = n.most; numbering = n.numbering };
      clock = n.clock.0;
      given = n.given;
      idle = n.idle.entries;
      held = n.held.entries;
      keys = n.keys.entries;
    } };

    ghost invariant = { λ n. n.idle.cap ≡ 2 ^ 64 - 1 };
}

impl<K: Eq + Hash + Copy + Drop, S: BuildHasher + Copy + Drop, A: Allocator + Copy> Names<K, S, A> {
    /// No key has a name. With a hasher that has random keys, no stranger can pick keys that make a look-up slow.
    pub fn with_hasher(
        alloc: A,
        most: Places,
        numbering: Numbering,
        hasher: S,
    ) -> Result<Names<K, S, A>, AllocError>
        // A table of `with_hasher` is the one in which no call was made.
        ensures start { IfOk result (λ names. names ≡ start (record { most = most; numbering = numbering })) }
        // To a table of `with_hasher` no call has led.
        ensures led { IfOk result (λ names. Led K.eq (record { most = most; numbering = numbering }) [] names) }
    {
        Ok(Names {
            most,
            numbering,
            clock: Moment(0),
            given: 0,
            idle: LruCache::unbounded_with_hasher(alloc, hasher)?,
            held: IndexMap::with_hasher(alloc, hasher),
            keys: IndexMap::with_hasher(alloc, hasher),
        })
    }

    /// The last moment that counted.
    pub fn clock(&self) -> Moment
        // The moment that a table tells is the latest that counted.
        ensures { result.0 ≡ self.now.clock }
    {
        self.clock
    }

    /// How many keys have a name.
    pub fn len(&self) -> usize
        // The number of names is that of the keys that have one.
        ensures { result ≡ length self.now.keys }
    {
        self.keys.len()
    }

    /// Whether no key has a name.
    pub fn is_empty(&self) -> bool
        // No key has a name exactly where the number of names is 0.
        ensures { IsTrue result ↔ (length self.now.keys ≡ 0) }
    {
        self.keys.len() == 0
    }

    /// The key of a name.
    pub fn key_of(&self, name: &Endpoint) -> Option<&K>
        // The key that is told is the one that has this name.
        ensures { option_copied result ≡ keyed self.now name.now }
    {
        self.keys.get(name)
    }

    /// The name of a key, where it has one. Nothing changes.
    pub fn find(&self, key: &K) -> Option<Endpoint>
        // The name that is found is the one that the key has.
        ensures { result ≡ named K.eq self.now key.now }
    {
        match self.idle.peek(key) {
            Some(place) => Some(place.name),
            None => held_name(&self.held, *key),
        }
    }

    /// The name of a key from which a datagram came: the one that it has, or a new one. Where each place is taken, the
    /// oldest name that is not held is forgotten, if it had no datagram in the last 247 s. After `Memory` the table is
    /// as before.
    pub fn name_of(&mut self, now: Moment, key: &K) -> Result<Endpoint, NamesRefusal>
        // What a datagram's key is named, and what the table is then, is a step of it.
        ensures step { result ≢ Err NamesRefusal.Memory
            → Step K.eq self.old (max self.old.clock now.0) (NameOf key.now) (answer_as result) self.new }
        // Every history that led to the table leads on with this call, unless it was refused memory.
        ensures led { result ≢ Err NamesRefusal.Memory
            → Leads K.eq self.old (max self.old.clock now.0) (NameOf key.now) (answer_as result) self.new }
        // A call that is refused memory leaves the table as it was.
        ensures err { result ≡ Err NamesRefusal.Memory → self.new ≡ self.old }
        // A key that has a name is not refused memory.
        ensures quiet { IsSome (named K.eq self.old key.now) → result ≢ Err NamesRefusal.Memory }
    {
        let at = self.clock.later(now);
        self.are_distinct();
        self.name_at(at, *key)
    }

    // The keys of each table are distinct. It does nothing.
    fn are_distinct(&self)
        ensures { Distinct K.eq self.now }
    {
        let _idle = self.idle.len();
        let _held = self.held.len();
        let _keys = self.keys.len();
    }

    // The name of a key of which a datagram came at this moment.
    fn name_at(&mut self, at: Moment, key: K) -> Result<Endpoint, NamesRefusal>
        ensures does { result ≢ Err NamesRefusal.Memory
            → Does K.eq self.old at.0 (NameOf key) (answer_as result) self.new }
        ensures err { result ≡ Err NamesRefusal.Memory → self.new ≡ self.old }
        ensures quiet { IsSome (named K.eq self.old key) → result ≢ Err NamesRefusal.Memory }
    {
        match touch(&mut self.idle, key, at) {
            Some(name) => {
                self.clock = at;
                Ok(name)
            }
            None => match held_name(&self.held, key) {
                Some(name) => {
                    self.clock = at;
                    Ok(name)
                }
                None => self.name_new(at, key),
            },
        }
    }

    // A new name, for a key that has none.
    fn name_new(&mut self, at: Moment, key: K) -> Result<Endpoint, NamesRefusal>
        requires idle { lookup (K.eq key) self.old.idle ≡ None }
        requires held { lookup (K.eq key) self.old.held ≡ None }
        ensures step { result ≢ Err NamesRefusal.Memory → Comes K.eq self.old at.0 key (answer_as result) self.new }
        ensures err { result ≡ Err NamesRefusal.Memory → self.new ≡ self.old }
    {
        if self.given >= self.numbering.names() {
            self.clock = at;
            return Err(NamesRefusal::Spent);
        }
        let is_full = self.idle.len() + self.held.len() >= self.most.get();
        if !is_full {
            return self.add(at, key);
        }
        if is_over(&self.idle, at) {
            return self.replace_last(at, key);
        }
        self.clock = at;
        Err(NamesRefusal::Full)
    }

    // Gives the next name to a key that has none.
    fn add(&mut self, at: Moment, key: K) -> Result<Endpoint, NamesRefusal>
        requires idle { lookup (K.eq key) self.old.idle ≡ None }
        requires within { self.old.given < names_in self.old.setup.numbering }
        requires below { self.old.given < NAMES }
        ensures gives { OnOk result
            (Gives K.eq self.old at.0 key self.old.idle (keyed self.old) (answer_as result) self.new) }
        ensures err { OnErr result ((result ≡ Err NamesRefusal.Memory) × (self.new ≡ self.old)) }
    {
        let name = numbered(self.given);
        make_room(&mut self.keys)?;
        put_first(&mut self.idle, key, Idle { name, at })?;
        // Nothing fails from here on.
        put_key(&mut self.keys, name, key);
        count(&mut self.given);
        self.clock = at;
        Ok(name)
    }

    // .. and forgets the last of those that are not held.
    fn replace_last(&mut self, at: Moment, key: K) -> Result<Endpoint, NamesRefusal>
        requires idle { lookup (K.eq key) self.old.idle ≡ None }
        requires within { self.old.given < names_in self.old.setup.numbering }
        requires below { self.old.given < NAMES }
        ensures gives { OnOk result ((gone : K × Idle) → last_entry self.old.idle ≡ Some gone
            → Gives K.eq self.old at.0 key (take (length self.old.idle - 1) self.old.idle)
            (λ n. cond (same_endpoint gone.1.name n) None (keyed self.old n)) (answer_as result) self.new) }
        ensures err { OnErr result ((result ≡ Err NamesRefusal.Memory) × (self.new ≡ self.old)) }
    {
        let name = numbered(self.given);
        make_room(&mut self.keys)?;
        put_first(&mut self.idle, key, Idle { name, at })?;
        // Nothing fails from here on.
        forget_last(&mut self.idle, &mut self.keys);
        put_key(&mut self.keys, name, key);
        count(&mut self.given);
        self.clock = at;
        Ok(name)
    }

    /// A datagram goes to this name: its key, to which to send it. That counts as a datagram from the key. None where
    /// the name is no key's.
    pub fn sent(&mut self, now: Moment, name: &Endpoint) -> Option<K>
        // A datagram goes to the key that has this name.
        ensures key { result ≡ keyed self.old name.now }
        // What a datagram to a name does is a step of the table.
        ensures step { Step K.eq self.old (max self.old.clock now.0) (Sent name.now) (Did (is_some result)) self.new }
        // Every history that led to the table leads on with a datagram to a name.
        ensures led { Leads K.eq self.old (max self.old.clock now.0) (Sent name.now) (Did (is_some result)) self.new }
    {
        self.are_distinct();
        let at = self.clock.later(now);
        self.sent_at(at, name)
    }

    fn sent_at(&mut self, at: Moment, name: &Endpoint) -> Option<K>
        ensures key { result ≡ keyed self.old name.now }
        ensures does { Does K.eq self.old at.0 (Sent name.now) (Did (is_some result)) self.new }
    {
        match key_at(&self.keys, name) {
            None => {
                self.clock = at;
                None
            }
            Some(key) => {
                touch(&mut self.idle, key, at);
                self.clock = at;
                Some(key)
            }
        }
    }

    /// Holds a name: it is not lost until it is released or retired. Whether it is held now: false where it is no
    /// key's.
    pub fn hold(&mut self, name: &Endpoint) -> Result<bool, AllocError>
        // What holding a name does is a step of the table.
        ensures step { IfOk result (λ done. Step K.eq self.old self.old.clock (Hold name.now) (Did done) self.new) }
        // Every history that led to the table leads on with a name that is held, unless it was refused memory.
        ensures led { IfOk result (λ done. Leads K.eq self.old self.old.clock (Hold name.now) (Did done) self.new) }
        // A hold that is refused memory leaves the table as it was.
        ensures err { OnErr result (self.new ≡ self.old) }
        // To hold a name that is held, or no key's, is not refused memory.
        ensures quiet { ((key : K) → keyed self.old name.now ≡ Some key → lookup (K.eq key) self.old.idle ≡ None)
            → IsOk result }
    {
        self.are_distinct();
        self.hold_known(name)
    }

    fn hold_known(&mut self, name: &Endpoint) -> Result<bool, AllocError>
        ensures does { IfOk result (λ done. Does K.eq self.old self.old.clock (Hold name.now) (Did done) self.new) }
        ensures err { OnErr result (self.new ≡ self.old) }
        ensures quiet { ((key : K) → keyed self.old name.now ≡ Some key → lookup (K.eq key) self.old.idle ≡ None)
            → IsOk result }
    {
        match key_at(&self.keys, name) {
            None => Ok(false),
            Some(key) => {
                let may_be_lost = self.idle.contains(&key);
                if may_be_lost {
                    self.held.reserve(1)?;
                    take_out(&mut self.idle, key);
                    put_held(&mut self.held, key, *name);
                }
                Ok(true)
            }
        }
    }

    /// Holds a name no more. That counts as a datagram from its key. Whether it was held.
    pub fn release(&mut self, now: Moment, name: &Endpoint) -> Result<bool, AllocError>
        // What releasing a name does is a step of the table.
        ensures step { IfOk result
            (λ done. Step K.eq self.old (max self.old.clock now.0) (Release name.now) (Did done) self.new) }
        // Every history that led to the table leads on with a name that is released, unless it was refused memory.
        ensures led { IfOk result
            (λ done. Leads K.eq self.old (max self.old.clock now.0) (Release name.now) (Did done) self.new) }
        // A release that is refused memory leaves the table as it was.
        ensures err { OnErr result (self.new ≡ self.old) }
        // To release a name that is not held, or no key's, is not refused memory.
        ensures quiet { ((key : K) → keyed self.old name.now ≡ Some key → IsSome (lookup (K.eq key) self.old.idle))
            → IsOk result }
    {
        self.are_distinct();
        let at = self.clock.later(now);
        self.release_at(at, name)
    }

    fn release_at(&mut self, at: Moment, name: &Endpoint) -> Result<bool, AllocError>
        ensures does { IfOk result (λ done. Does K.eq self.old at.0 (Release name.now) (Did done) self.new) }
        ensures err { OnErr result (self.new ≡ self.old) }
        ensures quiet { ((key : K) → keyed self.old name.now ≡ Some key → IsSome (lookup (K.eq key) self.old.idle))
            → IsOk result }
    {
        match key_at(&self.keys, name) {
            None => {
                self.clock = at;
                Ok(false)
            }
            Some(key) => {
                if self.idle.contains(&key) {
                    self.clock = at;
                    return Ok(false);
                }
                if put_first(&mut self.idle, key, Idle { name: *name, at }).is_err() {
                    return Err(AllocError);
                }
                let_go(&mut self.held, key);
                self.clock = at;
                Ok(true)
            }
        }
    }

    /// Forgets a name at once, of a key that never comes again. Whether it was a key's.
    pub fn retire(&mut self, name: &Endpoint) -> bool
        // What retiring a name does is a step of the table.
        ensures step { Step K.eq self.old self.old.clock (Retire name.now) (Did result) self.new }
        // Every history that led to the table leads on with a name that is retired.
        ensures led { Leads K.eq self.old self.old.clock (Retire name.now) (Did result) self.new }
    {
        self.are_distinct();
        self.retire_known(name)
    }

    fn retire_known(&mut self, name: &Endpoint) -> bool
        ensures does { Does K.eq self.old self.old.clock (Retire name.now) (Did result) self.new }
    {
        match forget_key(&mut self.keys, name) {
            None => false,
            Some(key) => {
                take_out(&mut self.idle, key);
                let_go(&mut self.held, key);
                true
            }
        }
    }
}
