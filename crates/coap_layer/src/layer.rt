//! The message layer of an end: its parts, its inputs and its outputs (RFC 7252, section 4).
mod load;
mod questions;
mod sendings;

ghost use Rattle.std.specs.Prelude.{◌≡◌, ◌<◌, ◌^◌, [], None, Some, IsSome, IsOk, IfOk, OnOk, OnErr};
ghost use Rattle.std.specs.Prelude.{length, true, false, max};
ghost use Rattle.coap_codec.specs.Message.{Message};
ghost use Rattle.coap_layer.specs.Machine.LayerLed.{LayerLed};
ghost use Rattle.coap_layer.specs.Machine.Moves.{Moves};
ghost use Rattle.coap_layer.specs.Machine.Shown.{MayReply};
ghost use Rattle.coap_layer.specs.Machine.State.{copies, made, start, usual};
ghost use Rattle.coap_layer.specs.Machine.Ups.{IsQuiet, IsTick, answer_as};
ghost use Rattle.coap_layer.specs.Trace.{Answer, Receive, Ticks, Take, Pass, Nothing, Gives};
ghost use Rattle.coap_layer.specs.Words.{handed_by};

use crate::arriving::{awaiting, hands, judge, keeps, read, sent, told};
use crate::dedup::Memory;
use crate::lists::Lists;
use crate::mark::{Awaiting, FoundIds, Mark};
use crate::outstanding::{due_copy, put_back};
use crate::retransmission::ticked;
use crate::room::{Brings, Room, grow};
use crate::taking::{Arrived, Moments, take_in, take_tick};
use crate::{Datagram, IdSource, Setup, Tick, Up};
use coap_types::{Endpoint, Id, Moment, Remembered};
use std::alloc::{AllocError, Allocator};
use std::collections::VecDeque;
use std::hash::{BuildHasher, BuildHasherDefault, FoldHasher};
use std::marker::Model;

/// The message layer of an end (RFC 7252, section 4).
///
/// It is handed what arrives, what is to be sent, and the time; it says what an arrival is, and
/// gives out datagrams. A moment before the last one counts as the last.
#[derive(Drop)]
pub struct Layer<A: Allocator + Copy, S: BuildHasher = BuildHasherDefault<FoldHasher>> {
    alloc: A,
    // How many messages are remembered at most.
    most: Remembered,
    clock: Moment,
    awaits: Option<Awaiting>,
    ids: IdSource,
    found: FoundIds,
    lists: Lists<A, S>,
    room: Room<A>,
    // A reply may be given to the message that was handed up last.
    replies: bool,
    mark: Option<Mark>,
}

impl<A: Allocator + Copy, S: BuildHasher> Model for Layer<A, S> {
    ghost use Rattle.coap_layer.specs.Machine.Shown.{Shown};

    ghost Value = { Shown };

    ghost use Rattle.std.specs.Prelude.{length};
    ghost use Rattle.coap_layer.specs.Machine.Parts.{awaited, before_of, found_ids, held};
    ghost use Rattle.coap_layer.specs.Machine.Sound.{IsWithin, HasRoom, IsKept};
    ghost use Rattle.coap_layer.specs.Machine.State.{forgotten};

    ghost view = { λ l. record {
      state = forgotten (held l.most l.clock.0 l.awaits l.ids l.lists);
      before = before_of l.most l.mark (found_ids l.found l.ids) l.lists.entries.settled l.lists.sendings.items
          l.lists.waiting.items;
      has_room = l.room.is_made;
      replies = l.replies;
    } };

    ghost invariant = { λ l. IsWithin l.mark l.lists.entries.settled (length l.lists.waiting.items)
        × HasRoom l.room l.lists
        × IsKept l.clock.0 (awaited l.awaits) l.replies l.lists.entries };
}

impl<A: Allocator + Copy> Layer<A, BuildHasherDefault<FoldHasher>> {
    /// A layer to which nothing has happened. The word picks its first Message ID: the first of
    /// group `word` mod 16.
    pub fn new(alloc: A, word: u64) -> Self
        // A `new` layer is in the state in which no call was made, by its word.
        ensures start { result.state ≡ start (usual word) }
        // A `new` layer has no input to take back.
        ensures before { result.before ≡ None }
    {
        Layer::with_hasher(alloc, word, BuildHasherDefault::new())
    }
}

impl<A: Allocator + Copy, S: BuildHasher> Layer<A, S> {
    /// The same, with a hasher for the messages that are remembered. With one that has random keys,
    /// no stranger can pick Message IDs that make a look-up slow.
    pub fn with_hasher(alloc: A, word: u64, hasher: S) -> Self
        // A layer of `with_hasher` is in the state in which no call was made, whatever the hasher.
        ensures start { result.state ≡ start (usual word) }
        // A layer of `with_hasher` has no input to take back.
        ensures before { result.before ≡ None }
    {
        Layer::with_setup(alloc, Setup::new(word), hasher)
    }

    /// The same, with so many messages that are remembered at most.
    pub fn with_setup(alloc: A, setup: Setup, hasher: S) -> Self
        // A layer of `with_setup` is in the state in which no call was made, by its word and number of places.
        ensures start { result.state ≡ start setup }
        // A layer of `with_setup` has no input to take back.
        ensures before { result.before ≡ None }
    {
        Layer {
            alloc,
            most: setup.remembered,
            clock: Moment(0),
            awaits: None,
            ids: IdSource::new(setup.word),
            found: FoundIds::new(),
            lists: Lists {
                entries: Memory::with_hasher(alloc, hasher, setup.remembered),
                sendings: Vec::new(alloc),
                waiting: VecDeque::new(alloc),
            },
            room: Room::new(alloc),
            replies: false,
            mark: None,
        }
    }

    /// The last moment that counted.
    pub fn clock(&self) -> Moment
        // The moment that is told is the latest that counted.
        ensures { result.0 ≡ self.now.state.clock }
    {
        self.clock
    }

    /// Takes a datagram that arrived, and says what becomes of it (RFC 7252, sections 4.2, 4.3 and
    /// 4.5). To what is handed up, `reply` or `plain` may be called, which is not refused memory
    /// then. After an `Err` the layer is as before.
    ///
    /// A server that answers each request with the same acknowledgement, 2.03 with no payload:
    ///
    /// ```
    /// if let Up::Request { message, remembered: true } = layer.receive(now, from, datagram)? {
    ///     let [high, low] = message.id().0.to_be_bytes();
    ///     layer.reply(from, message.id(), &[0x60, 0x43, high, low]);
    /// }
    /// while let Some(datagram) = layer.next_out() {
    ///     send(datagram.to(), datagram.bytes());
    /// }
    /// ```
    pub fn receive<'d>(
        &mut self,
        now: Moment,
        from: Endpoint,
        bytes: &'d [u8],
    ) -> Result<Up<'d>, AllocError>
        // What an arrival becomes, and what the layer is then, is a step of its machine.
        ensures step { IfOk result (λ up. Moves self.old now.0 (Receive from bytes.now) (answer_as up) self.new) }
        // An arrival can be taken back: the state before it is kept.
        ensures before { OnOk result (self.new.before ≡ Some self.old.state) }
        // To a message that is handed up a reply may be given.
        ensures may_reply { IfOk result (λ up. (m : Message) → handed_by (answer_as up) ≡ Some m
            → MayReply self.new from m.id) }
        // Room for a message outlasts an arrival.
        ensures kept { self.old.has_room ≡ true → self.new.has_room ≡ true }
        // An arrival that is refused memory leaves the layer as it was.
        ensures err { OnErr result (self.new ≡ self.old) }
        // An arrival for which nothing is sent and nothing is handed up takes no memory.
        ensures quiet { IsQuiet (made self.old.state now.0 (Receive from bytes.now)) → IsOk result }
    {
        let moments = Moments {
            last: self.clock,
            at: self.clock.later(now),
        };
        let datagram = read(bytes);
        let free = self.ids.would_give(moments.at);
        let arriving = judge(&datagram, moments.at, from, &self.lists, self.most, free);
        let sent = sent(self.alloc, moments.at, from, arriving, &self.lists.entries)?;
        let brings = Brings {
            keeps: keeps(arriving),
            hands: hands(arriving),
            sends: sent.is_some(),
        };
        grow(brings, &mut self.room, &mut self.lists)?;
        // Nothing fails from here on.
        let mark = take_in(
            moments,
            self.awaits,
            Arrived { from, arriving },
            sent,
            &mut self.lists,
        );
        self.clock = moments.at;
        self.found.is_noted = false;
        self.awaits = awaiting(from, arriving);
        self.replies = true;
        self.mark = Some(mark);
        Ok(told(datagram, arriving.verdict))
    }

    /// Lets time pass: the moment counts, and nothing else is done. It takes no memory.
    pub fn pass(&mut self, now: Moment)
        // That time passes is a step of the layer's machine.
        ensures step { Moves self.old now.0 Pass Nothing self.new }
        // A moment that is handed in is taken back with the last input.
        ensures before { self.new.before ≡ self.old.before }
        // A moment that is handed in leaves the room as it was.
        ensures room { self.new.has_room ≡ self.old.has_room }
        // A moment that is handed in leaves which reply may be given.
        ensures replies { self.new.replies ≡ self.old.replies }
    {
        self.clock = now.later(self.clock);
    }

    /// Does one step that is due: a retransmission, or the failure of one (RFC 7252, section 4.2).
    /// Where nothing is due, it takes no memory. After an `Err` the layer is as before.
    pub fn tick(&mut self, now: Moment) -> Result<Tick, AllocError>
        // What a tick does, a copy, a failure or nothing, is a step of the layer's machine.
        ensures step { IfOk result (λ tick. (answer : Answer) × IsTick tick answer
            × Moves self.old now.0 Ticks answer self.new) }
        // A tick can be taken back: the state before it is kept.
        ensures before { OnOk result (self.new.before ≡ Some self.old.state) }
        // A tick that is refused memory leaves the layer as it was.
        ensures err { OnErr result (self.new ≡ self.old) }
        // A tick at which no copy is due takes no memory.
        ensures quiet { copies (max self.old.state.clock now.0) self.old.state.open_cons ≡ [] → IsOk result }
        // Room for a message outlasts a tick.
        ensures kept { self.old.has_room ≡ true → self.new.has_room ≡ true }
    {
        let moments = Moments {
            last: self.clock,
            at: self.clock.later(now),
        };
        let sent = due_copy(self.alloc, &self.lists.sendings, moments.at)?;
        let brings = Brings {
            keeps: false,
            hands: false,
            sends: sent.is_some(),
        };
        grow(brings, &mut self.room, &mut self.lists)?;
        // Nothing fails from here on.
        let (mark, due) = take_tick(moments, self.awaits, sent, &mut self.lists);
        self.clock = moments.at;
        self.found.is_noted = false;
        self.awaits = None;
        self.mark = Some(mark);
        Ok(ticked(due))
    }

    /// The datagram that is to be sent next. After it, nothing can be taken back. It takes no
    /// memory.
    pub fn next_out(&mut self) -> Option<Datagram<A>>
        // Which datagram is given out, and what that leaves, is a step of the layer's machine.
        ensures step { Moves self.old 0 Take (Gives result) self.new }
        // What was given out is not taken back.
        ensures before { self.new.before ≡ None }
        // A datagram that is given out leaves the room as it was.
        ensures room { self.new.has_room ≡ self.old.has_room }
        // A datagram that is given out leaves which reply may be given.
        ensures replies { self.new.replies ≡ self.old.replies }
        // No more datagrams wait at a layer than a list in memory holds.
        ensures few { length self.old.state.queue < 2 ^ 64 }
    {
        self.mark = None;
        let _waiting = self.lists.waiting.len();
        self.lists.waiting.pop_front()
    }

    /// Takes back the last `receive` or `tick` that was not refused memory, and every call since.
    /// No reply may be given then. The room for a message that there is stays. It takes no memory.
    pub fn undo(&mut self)
        requires { IsSome self.old.before }
        // The last input is taken back: the layer is as it was before it.
        ensures back { self.old.before ≡ Some self.new.state }
        // After that there is no input to take back.
        ensures spent { self.new.before ≡ None }
        // To take an input back leaves the room as it was.
        ensures room { self.new.has_room ≡ self.old.has_room }
        // After that no reply may be given.
        ensures replies { self.new.replies ≡ false }
    {
        if let Some(mark) = self.mark.take() {
            self.clock = mark.clock;
            self.awaits = mark.awaits;
            self.found.put_back(&mut self.ids);
            self.replies = false;
            self.lists.entries.forget_newest();
            put_back(&mut self.lists.sendings);
            self.lists.waiting.truncate(mark.queued);
        }
    }
}
