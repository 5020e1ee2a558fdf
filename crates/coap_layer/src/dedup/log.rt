//! What is kept in the order in which it came, and found by its keys.
ghost use Rattle.std.specs.Prelude.{ℕ, ◌≡◌, ◌≢◌, ◌<◌, ◌≤◌, ◌+◌, ◌++◌, ◌%◌, [], ◌∷◌, None, Some, drop, length};
ghost use Rattle.std.specs.Prelude.{slice_get};
ghost use Rattle.std.specs.Prelude.{option_copied, IfSome, IfNone, OnOk};
ghost use Rattle.std.specs.Option.{option_map};
ghost use Rattle.std.specs.List.{IsDistinct};
ghost use Rattle.std.specs.Map.{keys_of, lookup};
ghost use Rattle.coap_layer.specs.Machine.Chains.{LeadsNowhere, NoneFrom, entries_of, hash_by};
ghost use Rattle.coap_layer.specs.Machine.Chains.{place_of as place_at};
ghost use Rattle.coap_layer.specs.declared.dedup.pages.TheConstants.{LONGEST as longest};

use crate::dedup::pages::Pages;
use std::alloc::{AllocError, Allocator};
use std::hash::{BuildHasher, Hash};
use std::marker::Model;

// So many heads are made at first.
const FEW: usize = 64;

// Once there are as many messages, each one that comes makes one of so many parts of the others, and no more than so
// many heads.
const PARTS: usize = 16;

const STEP: usize = 4_096;

// So much of a hash counts: what has 32 bits is divided faster.
const HASHES: u64 = 1 << 32;

/// What is kept under a key.
#[derive(Drop)]
pub(crate) struct Linked<K: Drop, V: Drop> {
    pub(crate) key: K,
    /// The number of the last one before it with the same head.
    pub(crate) link: u32,
    pub(crate) value: V,
}

/// What is kept under keys, in the order in which it came. Each has a number, the next one after that of the one
/// before it. Those of one head are a chain: the number of the last one stands at the head, and that of the one before
/// it at each as its link. So one that goes from the front is let go of with nothing else to be done.
#[derive(Drop)]
pub(crate) struct Log<K: Eq + Hash + Copy + Drop, V: Drop, A: Allocator + Copy, S: BuildHasher> {
    pages: Pages<Linked<K, V>, A>,
    few: Vec<u32, A>,
    // These are used once all of them are there.
    many: Vec<u32, A>,
    // How many these are then.
    most: usize,
    // The number of the first one on the pages.
    first: u32,
    // So many of these, the first ones, are forgotten.
    passed: usize,
    hasher: S,
}

impl<K: Eq + Hash + Copy + Drop, V: Drop, A: Allocator + Copy, S: BuildHasher> Model
    for Log<K, V, A, S> {
    ghost use Rattle.std.specs.Prelude.{◌≡◌, ◌<◌, ◌≤◌, ◌^◌, length};
    ghost use Rattle.std.specs.List.{IsDistinct};
    ghost use Rattle.std.specs.Map.{keys_of};
    ghost use Rattle.coap_layer.specs.Machine.Chains.{Logged, AreOnChains, entries_of, hash_by};

    ghost Value = { Logged K V };

    ghost view = { λ l. record {
      entries = entries_of l.passed l.pages.items;
      spare = l.pages.spare;
    } };

    ghost invariant = { λ l. (l.passed ≤ length l.pages.items)
        × (l.first < 2 ^ 32)
        × (0 < l.most)
        × (0 < l.pages.spare → 0 < length l.few.items)
        × IsDistinct K.eq (keys_of (entries_of l.passed l.pages.items))
        × AreOnChains (hash_by S.Hasher.finish S.Hasher.write (S.build_hasher l.hasher) K.hash_input) l.few.items
        l.many.items l.most l.first l.passed l.pages.items };
}

// The hash of a key.
fn hash_of<K: Eq + Hash + Copy + Drop, S: BuildHasher>(hasher: &S, key: K) -> u64
    ensures { result ≡ hash_by S.Hasher.finish S.Hasher.write (S.build_hasher hasher.now) K.hash_input key }
{
    hasher.hash_one(key) % HASHES
}

// The place of the head of a key, where there are so many.
fn head_of<K: Eq + Hash + Copy + Drop, S: BuildHasher>(hasher: &S, key: K, heads: usize) -> usize
    requires { 0 < heads }
    ensures place { result
        ≡ hash_by S.Hasher.finish S.Hasher.write (S.build_hasher hasher.now) K.hash_input key % heads }
    ensures within { result < heads }
{
    (hash_of(hasher, key) % heads as u64) as usize
}

// The place of a number, where the first one on the pages has that number.
fn place_of(first: u32, number: u32) -> usize
    ensures { result ≡ place_at first number }
{
    number.wrapping_sub(first) as usize
}

// Makes the first heads, unless they are there.
fn make_few<A: Allocator + Copy>(few: &mut Vec<u32, A>) -> Result<(), AllocError>
    ensures there { OnOk result (0 < length few.new.items) }
    ensures same { 0 < length few.old.items → few.new.items ≡ few.old.items }
{
    if few.len() == 0 {
        few.resize(FEW, 0)?;
    }
    Ok(())
}

// How many heads one message makes, of so many.
fn step_of(most: usize) -> usize
    ensures some { 1 ≤ result }
    ensures few { result ≤ STEP }
{
    STEP.min(most / PARTS + 1)
}

// Makes some more of so many heads, if not all of them are there, and so many messages are kept that few heads are too
// few.
fn make_more<A: Allocator + Copy>(
    many: &mut Vec<u32, A>,
    most: usize,
    held: usize,
) -> Result<(), AllocError>
    ensures { length many.old.items ≡ most → many.new.items ≡ many.old.items }
{
    let made = many.len();
    if held >= FEW && made < most {
        many.reserve(most - made)?;
        many.resize(made + step_of(most).min(most - made), 0)?;
    }
    Ok(())
}

// Puts a number at a head: which one stood there.
fn swap_head<A: Allocator + Copy>(heads: &mut Vec<u32, A>, head: usize, number: u32) -> u32
    requires { head < length heads.old.items }
    ensures old { slice_get heads.old.items head ≡ Some result }
    ensures new { slice_get heads.new.items head ≡ Some number }
    ensures others { (i : ℕ) → i ≢ head → slice_get heads.new.items i ≡ slice_get heads.old.items i }
    ensures len { length heads.new.items ≡ length heads.old.items }
{
    let old = heads[head];
    heads[head] = number;
    old
}

// What is kept under the key, if links lead there from a place.
fn follow<'l, K: Eq + Hash + Copy + Drop, V: Drop, A: Allocator + Copy>(
    pages: &'l Pages<Linked<K, V>, A>,
    first: u32,
    passed: usize,
    key: K,
    from: usize,
) -> Option<&'l V>
    requires { IsDistinct K.eq (keys_of (entries_of passed pages.now.items)) }
    ensures found { IfSome result (λ v. lookup (K.eq key) (entries_of passed pages.now.items) ≡ Some v.now) }
    ensures none { IfNone result (LeadsNowhere K.eq key first passed pages.now.items (length pages.now.items) from) }
{
    let mut bound = pages.len();
    let mut place = from;
    'back: while passed <= place && place < bound {
        let Some(linked) = pages.get(place) else {
            return None;
        };
        if key == linked.key {
            return Some(&linked.value);
        }
        bound = place;
        place = place_of(first, linked.link);
    }
    None
}

// What is kept under this key, if it is on the chain of the head of this hash.
fn find_by<'l, K: Eq + Hash + Copy + Drop, V: Drop, A: Allocator + Copy>(
    pages: &'l Pages<Linked<K, V>, A>,
    first: u32,
    passed: usize,
    hash: u64,
    heads: &[u32],
    key: K,
) -> Option<&'l V>
    requires { IsDistinct K.eq (keys_of (entries_of passed pages.now.items)) }
    ensures found { IfSome result (λ v. lookup (K.eq key) (entries_of passed pages.now.items) ≡ Some v.now) }
    ensures none { IfNone result (NoneFrom K.eq key first passed pages.now.items
        (slice_get heads.now (hash % length heads.now))) }
{
    if heads.len() == 0 {
        return None;
    }
    let head = (hash % heads.len() as u64) as usize;
    match heads.get(head) {
        Some(number) => follow(pages, first, passed, key, place_of(first, *number)),
        None => None,
    }
}

impl<K: Eq + Hash + Copy + Drop, V: Drop, A: Allocator + Copy, S: BuildHasher> Log<K, V, A, S> {
    /// Nothing is kept; for what will be there are so many heads at most. It takes no memory.
    pub(crate) fn new(alloc: A, hasher: S, most: usize) -> Log<K, V, A, S>
        requires { 0 < most }
        ensures { result.entries ≡ [] }
    {
        Log {
            pages: Pages::new(alloc),
            few: Vec::new(alloc),
            many: Vec::new(alloc),
            most,
            first: 1,
            passed: 0,
            hasher,
        }
    }

    /// How many are kept.
    pub(crate) fn len(&self) -> usize
        ensures len { result ≡ length self.now.entries }
        ensures few { result ≤ longest }
    {
        self.pages.len() - self.passed
    }

    /// That at this place.
    pub(crate) fn get(&self, place: usize) -> Option<&V>
        ensures { option_copied result ≡ option_map (λ e. e.1) (slice_get self.now.entries place) }
    {
        if place >= self.pages.len() - self.passed {
            return None;
        }
        match self.pages.get(self.passed + place) {
            Some(linked) => Some(&linked.value),
            None => None,
        }
    }

    /// What is kept under this key.
    pub(crate) fn find(&self, key: K) -> Option<&V>
        ensures value { option_copied result ≡ lookup (K.eq key) self.now.entries }
        ensures distinct { IsDistinct K.eq (keys_of self.now.entries) }
    {
        let (pages, first, passed) = (&self.pages, self.first, self.passed);
        let hash = hash_of(&self.hasher, key);
        match find_by(pages, first, passed, hash, &self.many, key) {
            Some(value) => Some(value),
            None => find_by(pages, first, passed, hash, &self.few, key),
        }
    }

    /// Makes room for two more.
    pub(crate) fn reserve(&mut self) -> Result<(), AllocError>
        ensures entries { self.new.entries ≡ self.old.entries }
        ensures spare { self.old.spare ≤ self.new.spare }
        ensures ok { OnOk result (2 ≤ self.new.spare) }
    {
        make_few(&mut self.few)?;
        make_more(&mut self.many, self.most, self.pages.len())?;
        self.pages.reserve()
    }

    /// Puts one more to them, for which there is room.
    pub(crate) fn push(&mut self, key: K, value: V)
        requires spare { 0 < self.old.spare }
        requires unknown { lookup (K.eq key) self.old.entries ≡ None }
        ensures entries { self.new.entries ≡ self.old.entries ++ (key, value) ∷ [] }
        ensures spare { self.new.spare + 1 ≡ self.old.spare }
    {
        let number = self.first.wrapping_add(self.pages.len() as u32);
        if self.many.len() == self.most {
            let head = head_of(&self.hasher, key, self.many.len());
            let link = swap_head(&mut self.many, head, number);
            self.pages.push(Linked { key, link, value });
        } else {
            let head = head_of(&self.hasher, key, self.few.len());
            let link = swap_head(&mut self.few, head, number);
            self.pages.push(Linked { key, link, value });
        }
    }

    /// Forgets so many more of them, the first ones.
    pub(crate) fn pass(&mut self, passed: usize)
        requires { passed ≤ length self.old.entries }
        ensures entries { self.new.entries ≡ drop passed self.old.entries }
        ensures spare { self.new.spare ≡ self.old.spare }
    {
        let _held = self.pages.len();
        self.passed += passed;
    }

    /// Lets go of a page, if all on it are forgotten.
    pub(crate) fn let_go(&mut self)
        ensures entries { self.new.entries ≡ self.old.entries }
        ensures spare { self.new.spare ≡ self.old.spare }
    {
        let going = self.pages.first();
        if going <= self.passed {
            self.pages.let_go();
            self.passed -= going;
            self.first = self.first.wrapping_add(going as u32);
        }
    }
}
