//! The operations of a client: what waits, what runs and what is live.
ghost use Rattle.std.specs.Prelude.{◌≡◌, ◌≤◌, ◌<◌, ◌++◌, [], ◌∷◌, None, Some, not, drop, filter, length, option_copied};
ghost use Rattle.std.specs.Prelude.{remove, slice_get, IsOk, OnOk, OnErr};
ghost use Rattle.std.specs.Borrow.{sem};
ghost use Rattle.std.specs.List.{list_any};
ghost use Rattle.std.specs.Option.{option_map};
ghost use Rattle.slab.specs.Slab.{get};
ghost use Rattle.coap_operations.specs.Keys.{is_cancel_key, observation_in, operation_in};
ghost use Rattle.coap_operations.specs.Listed.{first_runs, is_cancel, queued_map, running_map, without_fetch};
ghost use Rattle.coap_operations.specs.declared.queued.Queued.TheVariants as queued;
ghost use Rattle.coap_operations.specs.declared.running.Running.TheVariants as running;

use crate::MAX_WAITING;
use crate::entry::Entry;
use crate::queued::Queued;
use crate::running::Running;
use arrayvec::ArrayVec;
use slab::Slab;
use std::alloc::{AllocError, Allocator};
use std::marker::Model;

/// The operations of a client, of which at most `MAX_WAITING` wait, and its live observations. A contract sees
/// what waits, in order, what runs, and what is live, in the order in which it went live.
#[derive(Drop)]
pub struct Operations<W: Drop, O: Drop, A: Allocator + Copy> {
    entries: Slab<Entry<W, O>, A>,
    queue: ArrayVec<Queued<usize>, MAX_WAITING>,
    running: Option<Running<usize>>,
    live: Vec<usize, A>,
}

impl<W: Drop, O: Drop, A: Allocator + Copy> Model for Operations<W, O, A> {
    ghost use Rattle.std.specs.Prelude.{◌-◌};
    ghost use Rattle.std.specs.Vec.{vec_capacity};
    ghost use Rattle.slab.specs.Slab.{get, slab_len};
    ghost use Rattle.coap_operations.specs.Listed.{Listed};
    ghost use Rattle.coap_operations.specs.Keys.{EachOnce, live_of, queue_of, running_of};

    ghost Value = { Listed W O };

    ghost view = { λ s. record {
      queue = queue_of (get s.entries) s.queue.items;
      running = running_of (get s.entries) s.running;
      live = live_of (get s.entries) s.live.items;
      spare = s.entries.capacity - slab_len s.entries;
      places = vec_capacity s.live;
    } };

    ghost invariant = { λ s. EachOnce (get s.entries) s.queue.items s.running s.live.items };
}

impl<W: Drop, O: Drop, A: Allocator + Copy> Operations<W, O, A> {
    ghost use Rattle.coap_operations.specs.Lends.{lends_live};

    /// Nothing waits, runs or is live.
    pub fn new(alloc: A) -> Operations<W, O, A>
        // At first nothing waits.
        ensures queue { result.queue ≡ [] }
        // At first nothing runs.
        ensures running { result.running ≡ None }
        // At first nothing is live.
        ensures live { result.live ≡ [] }
    {
        Operations {
            entries: Slab::new(alloc),
            queue: ArrayVec::new(),
            running: None,
            live: Vec::new(alloc),
        }
    }

    /// How many wait.
    pub fn waiting_len(&self) -> usize
        // The number is that of what waits.
        ensures len { result ≡ length self.now.queue }
        // At most eight operations wait.
        ensures few { result ≤ MAX_WAITING }
    {
        self.queue.len()
    }

    /// Puts an operation behind those that wait. After an `Err` what waits, runs and is live is as before.
    pub fn push(&mut self, operation: W) -> Result<(), AllocError>
        requires { length self.old.queue < MAX_WAITING }
        // What is added waits behind the others, and all else is as it was.
        ensures added { OnOk result (self.new ≡ record self.old
            { queue = self.old.queue ++ queued.Starts operation ∷ []; spare = self.new.spare }) }
        // Where memory is refused, only how much is reserved may differ.
        ensures err { OnErr result (self.new ≡ record self.old { spare = self.new.spare }) }
    {
        let Ok(key) = self.entries.insert(Entry::Operation(operation)) else {
            return Err(AllocError);
        };
        self.queue.push(Queued::Starts(key));
        Ok(())
    }

    /// Puts the cancel of an observation behind what waits. It takes no memory.
    pub fn push_cancel(&mut self, number: u64)
        requires { length self.old.queue < MAX_WAITING }
        // The cancel of an observation waits behind the others, and all else is as it was.
        ensures { self.new ≡ record self.old { queue = self.old.queue ++ queued.Cancels number ∷ [] } }
    {
        self.queue.push(Queued::Cancels(number));
    }

    /// Whether a cancel of that observation waits.
    pub fn has_cancel(&self, number: u64) -> bool
        // The answer is whether a cancel of that observation waits.
        ensures { result ≡ list_any (is_cancel number) self.now.queue }
    {
        has_cancel(self.queue.as_slice(), number)
    }

    /// Takes out the cancel of that observation. It takes no memory.
    pub fn drop_cancel(&mut self, number: u64)
        // No cancel of that observation waits any more, and the others wait in their order.
        ensures { self.new ≡ record self.old { queue = filter (λ q. not (is_cancel number q)) self.old.queue } }
    {
        drop_cancel(&mut self.queue, number);
    }

    /// What stands at a place of what waits.
    pub fn waiting(&self, place: usize) -> Option<Queued<&W>>
        // What is lent is what waits at that place.
        ensures { option_map (queued_map (λ w. w.now)) result ≡ slice_get self.now.queue place }
    {
        match self.queue.get(place)? {
            Queued::Cancels(number) => Some(Queued::Cancels(*number)),
            Queued::Starts(key) => Some(Queued::Starts(operation(&self.entries, *key)?)),
        }
    }

    /// What runs.
    pub fn running(&self) -> Option<Running<&W>>
        // What is lent is what runs.
        ensures { option_map (running_map (λ w. w.now)) result ≡ self.now.running }
    {
        match self.running.as_ref()? {
            Running::Started(key) => Some(Running::Started(operation(&self.entries, *key)?)),
            Running::Fetching(number) => Some(Running::Fetching(*number)),
            Running::Cancelling(number) => Some(Running::Cancelling(*number)),
            Running::Dropped => Some(Running::Dropped),
        }
    }

    /// The first of what waits runs.
    pub fn start_first(&mut self)
        requires { self.old.running ≡ None }
        // The first that waited runs, and waits no more.
        ensures { self.new ≡ record self.old { queue = drop 1 self.old.queue; running = first_runs self.old.queue } }
    {
        self.running = match self.queue.pop_at(0) {
            None => None,
            Some(Queued::Starts(key)) => Some(Running::Started(key)),
            Some(Queued::Cancels(number)) => Some(Running::Cancelling(number)),
        };
    }

    /// Takes out what runs; what had waited leaves the slab.
    #[inline(always)]
    pub fn take_running(&mut self) -> Option<Running<W>>
        // What is given out is what ran.
        ensures value { result ≡ self.old.running }
        // Then nothing runs, and all else is as it was.
        ensures after { self.new ≡ record self.old { running = None; spare = self.new.spare } }
        // Where what ran had waited, its place is free again.
        ensures spare { (w : W) → result ≡ Some (running.Started w) → 0 < self.new.spare }
    {
        match self.running.take()? {
            Running::Started(key) => match self.entries.try_remove(key)? {
                Entry::Operation(operation) => Some(Running::Started(operation)),
                Entry::Observation(_) => unreachable!("what runs is no observation"),
            },
            Running::Fetching(number) => Some(Running::Fetching(number)),
            Running::Cancelling(number) => Some(Running::Cancelling(number)),
            Running::Dropped => Some(Running::Dropped),
        }
    }

    /// Nothing runs any more; what had waited leaves the slab.
    pub fn finish(&mut self)
        // Nothing runs any more, and what had waited leaves its place.
        ensures { self.new ≡ record self.old { running = None; spare = self.new.spare } }
    {
        self.take_running();
    }

    /// An operation runs, for which there is memory.
    pub fn run(&mut self, operation: W)
        requires idle { self.old.running ≡ None }
        requires spare { 0 < self.old.spare }
        // What is handed in runs.
        ensures { self.new ≡ record self.old { running = Some (running.Started operation); spare = self.new.spare } }
    {
        let key = self.entries.insert_reserved(Entry::Operation(operation));
        self.running = Some(Running::Started(key));
    }

    /// The fetch for the observation of that number runs.
    pub fn fetch(&mut self, number: u64)
        requires { self.old.running ≡ None }
        // The fetch for that observation runs.
        ensures { self.new ≡ record self.old { running = Some (running.Fetching number) } }
    {
        self.running = Some(Running::Fetching(number));
    }

    /// The fetch for the observation of that number no longer counts.
    pub fn drop_fetch(&mut self, number: u64)
        // Where the fetch for that observation ran, it no longer counts.
        ensures { self.new ≡ record self.old { running = without_fetch number self.old.running } }
    {
        if let Some(Running::Fetching(other)) = self.running {
            if other == number {
                self.running = Some(Running::Dropped);
            }
        }
    }

    /// How many observations are live.
    pub fn live_len(&self) -> usize
        // The number is that of the observations that are live.
        ensures { result ≡ length self.now.live }
    {
        self.live.len()
    }

    /// The live observation at that place.
    pub fn live(&self, place: usize) -> Option<&O>
        // What is told is the live observation at that place.
        ensures { option_copied result ≡ slice_get self.now.live place }
    {
        observation(&self.entries, *self.live.get(place)?)
    }

    /// The live observation at that place, for writing.
    pub fn live_mut(&mut self, place: usize) -> &mut O
        requires { place < length self.old.live }
        ensures* writes_back { sem 𝓛 (lends_live W.row O.row A.row A.Allocator self.entry place result) }
        // What is lent to be changed is the live observation at that place.
        ensures value { slice_get self.old.live place ≡ Some result.now }
    {
        let key = self.live[place];
        self.entries[key].observation_mut()
    }

    /// Makes room in the list of the live observations for one more.
    pub fn reserve_live(&mut self) -> Result<(), AllocError>
        // With what is reserved one more observation can go live.
        ensures room { OnOk result (length self.new.live < self.new.places) }
        // Where one more has a place, no memory is asked for.
        ensures had { length self.old.live < self.old.places → IsOk result }
        // To reserve a place changes nothing else.
        ensures same { self.new ≡ record self.old { places = self.new.places } }
    {
        self.live.reserve(1)
    }

    /// An observation is live from now on. There is memory for it.
    pub fn go_live(&mut self, observation: O)
        requires spare { 0 < self.old.spare }
        requires place { length self.old.live < self.old.places }
        // The observation is live, behind the others, and all else is as it was.
        ensures { self.new ≡ record self.old { live = self.old.live ++ observation ∷ []; spare = self.new.spare } }
    {
        let key = self
            .entries
            .insert_reserved(Entry::Observation(observation));
        self.live.push_reserved(key);
    }

    /// The observation at that place is live no more, and leaves the slab. It takes no memory.
    pub fn remove_live(&mut self, place: usize)
        requires { place < length self.old.live }
        // The observation at that place is live no more, and the others are in their order.
        ensures { self.new ≡ record self.old { live = remove self.old.live place; spare = self.new.spare } }
    {
        let key = self.live.remove(place);
        self.entries.try_remove(key);
    }

    /// The allocator that was handed over.
    pub fn allocator(&self) -> A {
        *self.live.allocator()
    }
}

// The operation under a key.
fn operation<W: Drop, O: Drop, A: Allocator + Copy>(
    entries: &Slab<Entry<W, O>, A>,
    key: usize,
) -> Option<&W>
    ensures { option_copied result ≡ operation_in (get entries.now key) }
{
    match entries.get(key) {
        Some(Entry::Operation(operation)) => Some(operation),
        _ => None,
    }
}

// The observation under a key.
fn observation<W: Drop, O: Drop, A: Allocator + Copy>(
    entries: &Slab<Entry<W, O>, A>,
    key: usize,
) -> Option<&O>
    ensures { option_copied result ≡ observation_in (get entries.now key) }
{
    match entries.get(key) {
        Some(Entry::Observation(observation)) => Some(observation),
        _ => None,
    }
}

// Whether it is the cancel of that observation.
fn cancels(key: &Queued<usize>, number: u64) -> bool
    ensures { result ≡ is_cancel_key number key.now }
{
    match key {
        Queued::Cancels(other) => *other == number,
        Queued::Starts(_) => false,
    }
}

// Whether a cancel of that observation is among them.
fn has_cancel(keys: &[Queued<usize>], number: u64) -> bool
    ensures { result ≡ list_any (is_cancel_key number) keys.now }
{
    keys.iter().any(|key| cancels(key, number))
}

// Takes out the cancel of that observation.
fn drop_cancel(keys: &mut ArrayVec<Queued<usize>, MAX_WAITING>, number: u64)
    ensures { keys.new.items ≡ filter (λ k. not (is_cancel_key number k)) keys.old.items }
{
    keys.retain(|key| !cancels(key, number));
}
