//! An input of a message layer: its moment, and what it forgets.
ghost use Rattle.std.specs.Prelude.{ℕ, ◌≡◌, ◌≤◌, ◌<◌, ◌+◌, ◌++◌, true, false, None, Some, List, length, filter};
ghost use Rattle.std.specs.Prelude.{is_some};
ghost use Rattle.std.specs.Prelude.{ℕ, option_to_list};
ghost use Rattle.std.specs.List.{filter_map};
ghost use Rattle.std.specs.Vec.{vec_len, vec_capacity};
ghost use Rattle.std.specs.VecDeque.{deque_len, deque_capacity};
ghost use Rattle.coap_layer.specs.Machine.Arriving.{awaits_by, hands, keeps, newly_by, open_by};
ghost use Rattle.coap_layer.specs.Machine.Entries.{IsUpTo, arrivals_in};
ghost use Rattle.coap_layer.specs.Machine.IdState.{IdState};
ghost use Rattle.coap_layer.specs.Machine.Parts.{awaited, before_of, state_of_parts};
ghost use Rattle.coap_layer.specs.Machine.Sendings.{answer_for, open_now};
ghost use Rattle.coap_layer.specs.Machine.Sound.{IsKept, IsWithin};
ghost use Rattle.coap_layer.specs.Machine.State.{forgotten, is_live, is_remembered, tick_of};
ghost use Rattle.coap_layer.specs.Trace.{Packet, Ticks};
ghost use Rattle.coap_layer.specs.Words.{left_by};

use crate::arriving::{Arriving, end_by, keep_by};
use crate::datagram::{Datagram, push_some};
use crate::lists::Lists;
use crate::mark::{Awaiting, Mark, begin};
use crate::retransmission::{Due, find_step, take_step};
use coap_types::{Endpoint, Moment};
use std::alloc::Allocator;
use std::hash::BuildHasher;

/// The moments of an input: the last that counted, and that which counts now.
#[derive(Clone, Copy)]
pub(crate) struct Moments {
    pub(crate) last: Moment,
    pub(crate) at: Moment,
}

/// What arrived, and from where.
#[derive(Clone, Copy)]
pub(crate) struct Arrived {
    pub(crate) from: Endpoint,
    pub(crate) arriving: Arriving,
}

/// Takes in what arrived, where there is room for all that it brings.
#[inline(always)]
pub(crate) fn take_in<A: Allocator + Copy, S: BuildHasher>(
    moments: Moments,
    awaits: Option<Awaiting>,
    arrived: Arrived,
    sent: Option<Datagram<A>>,
    lists: &mut Lists<A, S>,
) -> Mark
    requires moment { moments.last.0 ≤ moments.at.0 }
    requires up_to { IsUpTo moments.last.0 (arrivals_in lists.old.entries) }
    requires entry { keeps arrived.arriving.verdict arrived.arriving.kind ≡ true → 2 ≤ lists.old.entries.spare }
    requires unknown { hands arrived.arriving.verdict arrived.arriving.kind ≡ true
        → is_remembered moments.at.0 arrived.from arrived.arriving.id.0 (arrivals_in lists.old.entries) ≡ false }
    requires place { is_some sent ≡ true → deque_len lists.old.waiting + 1 < deque_capacity lists.old.waiting }
    ensures arrived { filter (is_live moments.at.0) (arrivals_in lists.new.entries)
        ≡ filter (is_live moments.at.0) (filter (is_live moments.last.0) (arrivals_in lists.old.entries)
        ++ newly_by moments.at.0 arrived.from arrived.arriving) }
    ensures open { open_now lists.new.sendings.items
        ≡ open_by arrived.from arrived.arriving (open_now lists.old.sendings.items) }
    ensures waiting { lists.new.waiting.items ≡ lists.old.waiting.items ++ option_to_list sent }
    ensures before { (most : ℕ) (ids : IdState) → before_of most (Some result) ids lists.new.entries.settled
        lists.new.sendings.items lists.new.waiting.items
        ≡ Some (forgotten (state_of_parts most moments.last.0 (awaited awaits) ids (arrivals_in lists.old.entries)
        (open_now lists.old.sendings.items) lists.old.waiting.items)) }
    ensures within { IsWithin (Some result) lists.new.entries.settled (length lists.new.waiting.items) }
    ensures kept { IsKept moments.at.0 (awaits_by arrived.from arrived.arriving) true lists.new.entries }
    ensures sendings_len { vec_len lists.new.sendings ≤ vec_len lists.old.sendings }
    ensures sendings_capacity { vec_capacity lists.new.sendings ≡ vec_capacity lists.old.sendings }
    ensures waiting_room { deque_len lists.old.waiting < deque_capacity lists.old.waiting
        → deque_len lists.new.waiting < deque_capacity lists.new.waiting }
{
    let mark = begin(moments.last, awaits, lists);
    end_by(arrived.from, arrived.arriving, &mut lists.sendings);
    keep_by(
        moments.at,
        arrived.from,
        arrived.arriving,
        &mut lists.entries,
    );
    push_some(&mut lists.waiting, sent);
    mark
}

/// Takes the step that is due, where there is room for what it sends.
pub(crate) fn take_tick<A: Allocator + Copy, S: BuildHasher>(
    moments: Moments,
    awaits: Option<Awaiting>,
    sent: Option<Datagram<A>>,
    lists: &mut Lists<A, S>,
) -> (Mark, Due)
    requires moment { moments.last.0 ≤ moments.at.0 }
    requires up_to { IsUpTo moments.last.0 (arrivals_in lists.old.entries) }
    requires place { is_some sent ≡ true → deque_len lists.old.waiting + 1 < deque_capacity lists.old.waiting }
    ensures due { answer_for result.1 ≡ tick_of moments.at.0 (open_now lists.old.sendings.items) }
    ensures arrived { arrivals_in lists.new.entries ≡ filter (is_live moments.last.0) (arrivals_in lists.old.entries) }
    ensures open { (out : List Packet)
        → open_now lists.new.sendings.items ≡ filter_map
        (left_by (record { at = moments.at.0; call = Ticks; answer = answer_for result.1; out = out }))
        (open_now lists.old.sendings.items) }
    ensures waiting { lists.new.waiting.items ≡ lists.old.waiting.items ++ option_to_list sent }
    ensures before { (most : ℕ) (ids : IdState) → before_of most (Some result.0) ids lists.new.entries.settled
        lists.new.sendings.items
        lists.new.waiting.items
        ≡ Some (forgotten (state_of_parts most moments.last.0 (awaited awaits) ids (arrivals_in lists.old.entries)
        (open_now lists.old.sendings.items) lists.old.waiting.items)) }
    ensures within { IsWithin (Some result.0) lists.new.entries.settled (length lists.new.waiting.items) }
    ensures kept { IsKept moments.at.0 None true lists.new.entries }
    ensures sendings_len { vec_len lists.new.sendings ≤ vec_len lists.old.sendings }
    ensures sendings_capacity { vec_capacity lists.new.sendings ≡ vec_capacity lists.old.sendings }
    ensures waiting_room { deque_len lists.old.waiting < deque_capacity lists.old.waiting
        → deque_len lists.new.waiting < deque_capacity lists.new.waiting }
{
    let mark = begin(moments.last, awaits, lists);
    let due = find_step(&lists.sendings, moments.at);
    take_step(&mut lists.sendings, due, moments.at);
    push_some(&mut lists.waiting, sent);
    (mark, due)
}
