//! What an end sends, and that no more copies of it go out.
ghost use Rattle.std.specs.Prelude.{◌≡◌, ◌≢◌, ◌≤◌, Err, OnErr, length, true, false};
ghost use Rattle.coap_layer.specs.declared.up.SendRefusal.TheVariants as refused;
ghost use Rattle.coap_layer.specs.Machine.Moves.{Moves, would_answer};
ghost use Rattle.coap_layer.specs.Machine.Shown.{MayReply};
ghost use Rattle.coap_layer.specs.Machine.Ups.{sent_as};
ghost use Rattle.coap_layer.specs.Sendable.{IsSendable};
ghost use Rattle.coap_layer.specs.Trace.{Reply, Confirm, Plain, Settle, Room as AsksRoom, AsksFree, Nothing, Is};
ghost use Rattle.coap_types.specs.declared.limits.TheConstants.{MAX_MESSAGE_LEN as max_message_len};

use crate::datagram::push_within;
use crate::layer::Layer;
use crate::retransmission::{end_all, is_busy, is_outstanding};
use crate::room::{copied, make_room};
use crate::sending::{FirstSending, refusal, send_con, send_non};
use crate::{Content, Datagram, SendRefusal};
use coap_types::{Endpoint, Id, Moment};
use std::alloc::Allocator;
use std::hash::BuildHasher;

impl<A: Allocator + Copy, S: BuildHasher> Layer<A, S> {
    /// Sends the reply to the message that was handed up last, and stores it for a Confirmable one,
    /// so that a duplicate gets it again (RFC 7252, sections 4.2 and 4.5). It is not refused memory: it asks for
    /// allocations of the reply's own length, and where one is refused it uses the buffer that was made before.
    pub fn reply(&mut self, to: Endpoint, id: Id, bytes: &[u8])
        requires may { MayReply self.old to id.0 }
        requires short { length bytes.now ≤ max_message_len }
        // What a reply leaves is a step of the layer's machine.
        ensures step { Moves self.old 0 (Reply to id.0 bytes.now) Nothing self.new }
        // A reply belongs to the input that it answers, and is taken back with it.
        ensures before { self.new.before ≡ self.old.before }
    {
        let stored = copied(bytes, &mut self.room.kept);
        let sent = copied(bytes, &mut self.room.sent);
        self.room.is_made = false;
        self.lists.entries.store_reply(to, id, stored);
        push_within(&mut self.lists.waiting, Datagram { to, bytes: sent });
        self.awaits = None;
    }

    /// Sends a Confirmable message, and answers its Message ID (RFC 7252, section 4.2). The word
    /// picks the initial timeout in milliseconds: `ACK_TIMEOUT_MS` and `word` mod `TIMEOUT_VALUES`.
    ///
    /// It is refused with `Outstanding` where a Confirmable message to that endpoint is outstanding
    /// (NSTART is 1: section 4.7), else with `NoIds` where no Message ID is free (section 4.4), else
    /// with `Memory` where an allocation was refused. After `Memory` the layer is as before, after
    /// another refusal its moment has counted alone.
    pub fn confirm(
        &mut self,
        now: Moment,
        to: Endpoint,
        content: &Content<'_>,
        word: u64,
    ) -> Result<Id, SendRefusal>
        requires { IsSendable content.now }
        // What the sending of a Confirmable message answers and leaves is a step of the layer's machine.
        ensures step { result ≢ Err refused.Memory
            → Moves self.old now.0 (Confirm to content.now word) (sent_as result) self.new }
        // A Confirmable message is taken back with the last input.
        ensures before { self.new.before ≡ self.old.before }
        // With room a Confirmable message is not refused memory.
        ensures room { self.old.has_room ≡ true → result ≢ Err refused.Memory }
        // A Confirmable message that is refused leaves the room as it was.
        ensures kept { OnErr result (self.new.has_room ≡ self.old.has_room) }
        // A Confirmable message that is refused for another reason takes no memory.
        ensures quiet { would_answer self.old now.0 (AsksRoom to) ≡ Is false → result ≢ Err refused.Memory }
        // A Confirmable message that is refused memory leaves the layer as it was.
        ensures memory { result ≡ Err refused.Memory → self.new ≡ self.old }
    {
        let at = self.clock.later(now);
        let busy = is_busy(&self.lists.sendings, to);
        if let Some(refusal) = refusal(busy, self.ids.would_give(at)) {
            self.clock = at;
            self.awaits = None;
            return Err(refusal);
        }
        let Ok(()) = make_room(&mut self.room, &mut self.lists) else {
            return Err(SendRefusal::Memory);
        };
        // Nothing fails from here on.
        self.found.note(&self.ids);
        let id = self.ids.give(at);
        let begun = FirstSending { at, word };
        send_con(&mut self.room, begun, to, id, content, &mut self.lists);
        self.clock = at;
        self.awaits = None;
        Ok(id)
    }

    /// Sends a Non-confirmable message, and answers its Message ID (RFC 7252, section 4.3).
    ///
    /// It is refused with `NoIds` where no Message ID is free (section 4.4), else with `Memory` where
    /// an allocation was refused; never with `Outstanding`. After `Memory` the layer is as before,
    /// after `NoIds` its moment has counted alone.
    pub fn plain(
        &mut self,
        now: Moment,
        to: Endpoint,
        content: &Content<'_>,
    ) -> Result<Id, SendRefusal>
        requires { IsSendable content.now }
        // What the sending of a Non-confirmable message answers and leaves is a step of the layer's machine.
        ensures step { result ≢ Err refused.Memory
            → Moves self.old now.0 (Plain to content.now) (sent_as result) self.new }
        // A Non-confirmable message is taken back with the last input.
        ensures before { self.new.before ≡ self.old.before }
        // With room a Non-confirmable message is not refused memory.
        ensures room { self.old.has_room ≡ true → result ≢ Err refused.Memory }
        // A Non-confirmable message that is refused leaves the room as it was.
        ensures kept { OnErr result (self.new.has_room ≡ self.old.has_room) }
        // A Non-confirmable message that is refused for another reason takes no memory.
        ensures quiet { would_answer self.old now.0 AsksFree ≡ Is false → result ≢ Err refused.Memory }
        // A Non-confirmable message that is refused memory leaves the layer as it was.
        ensures memory { result ≡ Err refused.Memory → self.new ≡ self.old }
    {
        let at = self.clock.later(now);
        if let Some(refusal) = refusal(false, self.ids.would_give(at)) {
            self.clock = at;
            self.awaits = None;
            return Err(refusal);
        }
        let Ok(()) = make_room(&mut self.room, &mut self.lists) else {
            return Err(SendRefusal::Memory);
        };
        // Nothing fails from here on.
        self.found.note(&self.ids);
        let id = self.ids.give(at);
        send_non(&mut self.room, to, id, content, &mut self.lists);
        self.clock = at;
        self.awaits = None;
        Ok(id)
    }

    /// Ends the retransmission of the message to this endpoint with this Message ID; false where
    /// none is outstanding. It takes no memory.
    pub fn settle(&mut self, to: Endpoint, id: Id) -> bool
        // That the copies of a message end, since its answer came, is a step of the layer's machine (section 5.2.2).
        ensures step { Moves self.old 0 (Settle to id.0) (Is result) self.new }
        // What is settled is open again once the last input is taken back.
        ensures before { self.new.before ≡ self.old.before }
        // To settle a message leaves the room as it was.
        ensures room { self.new.has_room ≡ self.old.has_room }
        // To settle a message leaves which reply may be given.
        ensures replies { self.new.replies ≡ self.old.replies }
    {
        let open = is_outstanding(&self.lists.sendings, to, id);
        end_all(&mut self.lists.sendings, to, id);
        open
    }
}
