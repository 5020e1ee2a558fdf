//! What a message layer notes as an input begins, so that the input can be taken back.
ghost use Rattle.std.specs.Prelude.{◌≡◌, ◌≤◌, ◌+◌, None, false, length, filter};
ghost use Rattle.std.specs.Vec.{vec_len, vec_capacity};
ghost use Rattle.coap_layer.specs.Machine.Entries.{IsUpTo, arrivals_in};
ghost use Rattle.coap_layer.specs.Machine.IdState.{IdState};
ghost use Rattle.coap_layer.specs.Machine.Parts.{found_ids, noted, open_before};
ghost use Rattle.coap_layer.specs.Machine.Sendings.{open_now};
ghost use Rattle.coap_layer.specs.Machine.State.{is_live};

use crate::IdSource;
use crate::lists::Lists;
use crate::outstanding::settle_down;
use coap_types::{Endpoint, Id, Moment};
use std::alloc::Allocator;
use std::hash::BuildHasher;

/// The message that was handed up last: what a reply may be given to.
#[derive(Clone, Copy)]
pub(crate) struct Awaiting {
    pub(crate) from: Endpoint,
    pub(crate) id: Id,
}

/// What the last input found, to be put back by `undo`. The list of what waits is longer since, or
/// the same, and a message that came with that input isn't settled.
#[derive(Drop)]
pub(crate) struct Mark {
    pub(crate) clock: Moment,
    pub(crate) awaits: Option<Awaiting>,
    /// How many datagrams waited.
    pub(crate) queued: usize,
}

/// The source of Message IDs as the last input found it. It is noted when a number is given, since most
/// inputs are followed by none, and a copy at each of them would cost more than all else that is noted.
#[derive(Drop)]
pub(crate) struct FoundIds {
    pub(crate) ids: IdSource,
    /// A number was given since the last input, and before that the source was noted.
    pub(crate) is_noted: bool,
}

impl FoundIds {
    /// None has been given.
    pub(crate) fn new() -> FoundIds
        ensures { result.is_noted ≡ false }
    {
        FoundIds {
            ids: IdSource::new(0),
            is_noted: false,
        }
    }

    /// Notes the source, from which a number is given now, unless that was done since the last input.
    pub(crate) fn note(&mut self, ids: &IdSource)
        ensures { (later : IdState) → found_ids self.new later ≡ found_ids self.old ids.now }
    {
        if !self.is_noted {
            self.ids = ids.copied();
            self.is_noted = true;
        }
    }

    /// Puts back what the last input found.
    pub(crate) fn put_back(&self, ids: &mut IdSource)
        ensures { ids.new ≡ found_ids self.now ids.old }
    {
        if self.is_noted {
            *ids = self.ids.copied();
        }
    }
}

/// Lets go of what the input before left to be taken back, and says what this one finds.
#[inline(always)]
pub(crate) fn begin<A: Allocator + Copy, S: BuildHasher>(
    clock: Moment,
    awaits: Option<Awaiting>,
    lists: &mut Lists<A, S>,
) -> Mark
    requires { IsUpTo clock.0 (arrivals_in lists.old.entries) }
    ensures settled { lists.new.entries.settled ≡ filter (is_live clock.0) (arrivals_in lists.old.entries) }
    ensures newest { lists.new.entries.newest ≡ None }
    ensures spare { lists.old.entries.spare ≤ lists.new.entries.spare + 1 }
    ensures sendings { lists.new.sendings.items ≡ noted lists.old.sendings.items }
    ensures open { open_now lists.new.sendings.items ≡ open_now lists.old.sendings.items }
    ensures open_before { open_before lists.new.sendings.items ≡ open_now lists.old.sendings.items }
    ensures sendings_len { vec_len lists.new.sendings ≤ vec_len lists.old.sendings }
    ensures sendings_capacity { vec_capacity lists.new.sendings ≡ vec_capacity lists.old.sendings }
    ensures waiting { lists.new.waiting ≡ lists.old.waiting }
    ensures clock { result.clock ≡ clock }
    ensures awaits { result.awaits ≡ awaits }
    ensures queued { result.queued ≡ length lists.new.waiting.items }
{
    lists.entries.settle(clock);
    settle_down(&mut lists.sendings);
    Mark {
        clock,
        awaits,
        queued: lists.waiting.len(),
    }
}
