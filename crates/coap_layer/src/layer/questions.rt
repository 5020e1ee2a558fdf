//! What an end asks its layer before it sends or waits.
ghost use Rattle.std.specs.Prelude.{◌≡◌, ◌≢◌, ◌≤◌, ◌<◌, ◌^◌, ℕ, max, true, false, IsOk, IfOk, IfSome, IfNone, OnOk};
ghost use Rattle.std.specs.Prelude.{OnErr};
ghost use Rattle.coap_types.specs.FirstMoment.{IsFirstMoment};
ghost use Rattle.coap_layer.specs.Machine.Moves.{Moves, would_answer};
ghost use Rattle.coap_layer.specs.Machine.State.{is_free};
ghost use Rattle.coap_layer.specs.Machine.Waits.{any_has_step};
ghost use Rattle.coap_layer.specs.Trace.{Ticks, Room as AsksRoom, AsksFree, Is, Idle};

use crate::due::next_step;
use crate::layer::Layer;
use crate::retransmission::{find_step, is_busy, is_step};
use crate::room::{Brings, grow, make_room};
use crate::sending::refusal;
use coap_types::{Endpoint, Moment};
use std::alloc::{AllocError, Allocator};
use std::hash::BuildHasher;

impl<A: Allocator + Copy, S: BuildHasher> Layer<A, S> {
    /// What `room` would answer now. Nothing changes: the moment doesn't count.
    pub fn would_confirm(&self, now: Moment, to: Endpoint) -> bool
        // What is answered is what `room` would answer now.
        ensures { would_answer self.now now.0 (AsksRoom to) ≡ Is result }
    {
        let at = self.clock.later(now);
        let busy = is_busy(&self.lists.sendings, to);
        refusal(busy, self.ids.would_give(at)).is_none()
    }

    /// Whether `tick` would do a step now. Nothing changes: the moment doesn't count. It takes no
    /// memory.
    pub fn would_tick(&self, now: Moment) -> bool
        // Where nothing would be done, a tick at that moment is idle.
        ensures idle { result ≡ false → would_answer self.now now.0 Ticks ≡ Idle }
        // Where something would be done, a tick at that moment is not idle.
        ensures due { result ≡ true → would_answer self.now now.0 Ticks ≢ Idle }
    {
        let at = self.clock.later(now);
        is_step(find_step(&self.lists.sendings, at))
    }

    /// The first moment, from this one on, at which `tick` would do a step, unless something is handed in before; None
    /// where it never would. A moment before the last one counts as the last. Nothing changes: the moment doesn't
    /// count. It takes no memory.
    pub fn due(&self, now: Moment) -> Option<Moment>
        // Where no moment is told, no later tick does anything unless something is handed in.
        ensures none { IfNone result ((later : ℕ) → now.0 ≤ later → later < 2 ^ 64
            → would_answer self.now later Ticks ≡ Idle) }
        // No tick before the moment that is told does anything.
        ensures some { IfSome result (λ at. (later : ℕ) → now.0 ≤ later → max self.now.state.clock later < at.0
            → would_answer self.now later Ticks ≡ Idle) }
        // A tick at the moment that is told does something.
        ensures does { IfSome result (λ at. would_answer self.now at.0 Ticks ≢ Idle) }
        // The moment that is told is not before the layer's clock, nor before the one that was handed in.
        ensures from { IfSome result (λ at. max self.now.state.clock now.0 ≤ at.0) }
        // The moment that is told is that of the first step that is due of what is outstanding.
        ensures first { IsFirstMoment (λ later. any_has_step later self.now.state.open_cons)
            (max self.now.state.clock now.0) result }
    {
        next_step(&self.lists.sendings, self.clock.later(now))
    }

    /// The first moment, from this one on, at which a Message ID is free, unless something is handed in before. A
    /// moment before the last one counts as the last. Nothing changes: the moment doesn't count. It takes no memory.
    pub fn free_from(&self, now: Moment) -> Option<Moment>
        // The moment that is told is the first at which a Message ID is free, unless something is handed in.
        ensures { IsFirstMoment (λ later. is_free later self.now.state.upcoming self.now.state.last_used)
            (max self.now.state.clock now.0) result }
    {
        self.ids.gives_from(self.clock.later(now))
    }

    /// Whether `confirm` would refuse a message to this endpoint with neither `Outstanding` nor
    /// `NoIds`. After true, `confirm` and `plain` are not refused memory, until one of them or
    /// `reply` is called. Where it is false, it takes no memory.
    pub fn room(&mut self, now: Moment, to: Endpoint) -> Result<bool, AllocError>
        // Whether there is room, and what asking leaves, is a step of the layer's machine.
        ensures step { IfOk result (λ may. Moves self.old now.0 (AsksRoom to) (Is may) self.new) }
        // A question for room is taken back with the last input.
        ensures before { self.new.before ≡ self.old.before }
        // Where the answer is yes, there is room for a message.
        ensures room { IfOk result (λ may. may ≡ true → self.new.has_room ≡ true) }
        // Room that was there outlasts the question.
        ensures kept { self.old.has_room ≡ true → self.new.has_room ≡ true }
        // A question for room leaves which reply may be given.
        ensures replies { self.new.replies ≡ self.old.replies }
        // An answer that there is no room takes no memory.
        ensures quiet { would_answer self.old now.0 (AsksRoom to) ≡ Is false → IsOk result }
        // A question takes no memory where there is room already.
        ensures had { self.old.has_room ≡ true → IsOk result }
        // A question that is refused memory leaves the layer as it was.
        ensures err { OnErr result (self.new ≡ self.old) }
    {
        let at = self.clock.later(now);
        let may = self.would_confirm(now, to);
        let brings = Brings {
            keeps: false,
            hands: may,
            sends: false,
        };
        grow(brings, &mut self.room, &mut self.lists)?;
        self.clock = at;
        Ok(may)
    }

    /// Makes room for one message: after it, `confirm`, `plain` and a `room` are not refused memory,
    /// until one of the first two or `reply` is called.
    pub fn reserve(&mut self) -> Result<(), AllocError>
        // To reserve room changes nothing that a law speaks of.
        ensures state { self.new.state ≡ self.old.state }
        // To reserve room leaves what can be taken back.
        ensures before { self.new.before ≡ self.old.before }
        // To reserve room leaves which reply may be given.
        ensures replies { self.new.replies ≡ self.old.replies }
        // Where room is reserved, it is there.
        ensures room { OnOk result (self.new.has_room ≡ true) }
        // To reserve room takes no memory where it is there already.
        ensures had { self.old.has_room ≡ true → IsOk result }
        // Where room is refused, the layer is as it was.
        ensures err { OnErr result (self.new ≡ self.old) }
    {
        make_room(&mut self.room, &mut self.lists)?;
        Ok(())
    }

    /// Whether a Message ID is free. It takes no memory.
    pub fn is_free(&mut self, now: Moment) -> bool
        // Whether a Message ID is free, and what asking leaves, is a step of the layer's machine.
        ensures step { Moves self.old now.0 AsksFree (Is result) self.new }
        // A question for a Message ID is taken back with the last input.
        ensures before { self.new.before ≡ self.old.before }
        // A question for a Message ID leaves the room as it was.
        ensures room { self.new.has_room ≡ self.old.has_room }
        // A question for a Message ID leaves which reply may be given.
        ensures replies { self.new.replies ≡ self.old.replies }
    {
        self.clock = self.clock.later(now);
        self.ids.would_give(self.clock)
    }
}
