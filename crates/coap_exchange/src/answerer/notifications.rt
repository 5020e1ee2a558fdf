//! Notifications to observers (RFC 7641, sections 4.2 and 4.5).
ghost use Rattle.std.specs.Prelude.{◌≡◌, ℕ, max, true, false, IsOk, IfOk, OnErr, OnOk};
ghost use Rattle.coap_types.specs.declared.endpoint.Endpoint.{Endpoint as EndpointSpec};
ghost use Rattle.coap_layer.specs.Machine.State.{answer_of};
ghost use Rattle.coap_layer.specs.Trace as below;
ghost use Rattle.coap_exchange.specs.AnswererLaw.{Step};
ghost use Rattle.coap_exchange.specs.AnswererTrace.{Ready, Notifies, NotifiesPlain};
ghost use Rattle.coap_exchange.specs.Machine.AnswererShown.{MayNotify, IsAnswerWith};
ghost use Rattle.coap_exchange.specs.Machine.WhatIsDue.{takes_con};

use crate::answerer::{Answerer, Response};
use crate::listed::enlist;
use crate::waiting::{confirm, plain, separate_of};
use coap_types::{Endpoint, Id, Moment, Token};
use std::alloc::{AllocError, Allocator};
use std::hash::BuildHasher;

impl<A: Allocator + Copy, S: BuildHasher> Answerer<A, S> {
    /// What `ready` would answer now. Nothing changes: the moment doesn't count. It takes no memory.
    pub fn would_notify(&self, now: Moment, to: Endpoint) -> bool
        // What is answered is what `ready` would answer now.
        ensures { answer_of self.now.state.layer (max self.now.state.own.clock now.0) (below.Room to)
            ≡ below.Is result }
    {
        self.layer.would_confirm(now, to)
    }

    /// Whether a notification could be sent there now: no Confirmable message to this endpoint is
    /// outstanding, and a Message ID is free (RFC 7252, sections 4.4 and 4.7). After true, `notify`
    /// may be called at the same moment, and is not refused memory. Where it is false, it takes no memory.
    pub fn ready(&mut self, now: Moment, to: Endpoint) -> Result<bool, AllocError>
        // Whether a notification may be sent, and what asking leaves, is a step of the answerer's machine.
        ensures step { IfOk result (λ may. Step self.old.state (Ready now.0 to may) self.new.state) }
        // A notification may be sent exactly where no CON to the endpoint is outstanding and a Message ID is free.
        ensures answer { IfOk result (λ may. may ≡ takes_con self.old.state now.0 to) }
        // Where the answer is yes, `notify` may be called at that moment.
        ensures may { IfOk result (λ may. may ≡ true → MayNotify self.new now.0 to) }
        // The question leaves whether a request may be answered.
        ensures answerable { self.new.answerable ≡ self.old.answerable }
        // A CON can be sent after the question where it could before.
        ensures same { (there : EndpointSpec)
            → takes_con self.new.state now.0 there ≡ takes_con self.old.state now.0 there }
        // Where a notification could be sent before the question, it still can.
        ensures kept { (at : ℕ) (there : EndpointSpec) → MayNotify self.old at there → MayNotify self.new at there }
        // The question is taken back with the last input.
        ensures before { self.new.before ≡ self.old.before }
        // A question that is refused memory leaves the answerer as it was.
        ensures err { OnErr result (self.new ≡ self.old) }
        // The question takes no memory where there is room already.
        ensures had { self.old.room ≡ true → IsOk result }
        // Room that was there is there after the question.
        ensures room { OnOk result (self.old.room ≡ true → self.new.room ≡ true) }
        // An answer that no notification may be sent takes no memory.
        ensures quiet { takes_con self.old.state now.0 to ≡ false → IsOk result }
    {
        if self.layer.would_confirm(now, to) {
            self.separate.reserve(1)?;
        }
        let may = self.layer.room(now, to)?;
        self.room = self.room || may;
        Ok(may)
    }

    /// Sends a notification to an observer in a Confirmable message, where `ready` answered true at
    /// this moment, and since then nothing was sent and no input taken back; answers its Message ID
    /// (RFC 7641, sections 4.2 and 4.5). A request that was handed up before can't be answered any
    /// more. The word picks the initial timeout. It is not refused memory.
    pub fn notify(
        &mut self,
        now: Moment,
        to: Endpoint,
        token: &Token,
        response: &Response<'_>,
        word: u64,
    ) -> Id
        requires may { MayNotify self.old now.0 to }
        requires response { IsAnswerWith token.now response.now }
        // Which Message ID a notification has, and what that leaves, is a step of the answerer's machine.
        ensures step { Step self.old.state (Notifies now.0 to token.now response.now word result.0) self.new.state }
        // A notification is taken back with the last input.
        ensures before { self.new.before ≡ self.old.before }
    {
        let id = confirm(&mut self.layer, now, to, token, response, word);
        enlist(&mut self.separate, separate_of(to, id, token, response));
        self.findings.pending = None;
        self.room = false;
        id
    }

    /// Sends a notification to an observer in a Non-confirmable message, where `ready` answered true
    /// at this moment, and since then nothing was sent and no input taken back; answers its Message
    /// ID (RFC 7641, section 4.5). Nothing waits for an acknowledgement then, and a Reset of it is
    /// `unmatched`. A request that was handed up before can't be answered any more. It is not
    /// refused memory.
    pub fn notify_plain(
        &mut self,
        now: Moment,
        to: Endpoint,
        token: &Token,
        response: &Response<'_>,
    ) -> Id
        requires may { MayNotify self.old now.0 to }
        requires response { IsAnswerWith token.now response.now }
        // A notification in a NON, its Message ID, and what it leaves, are a step of the answerer's machine.
        ensures step { Step self.old.state (NotifiesPlain now.0 to token.now response.now result.0) self.new.state }
        // A notification in a NON leaves what `undo` takes back as it was.
        ensures before { self.new.before ≡ self.old.before }
    {
        let id = plain(&mut self.layer, now, to, token, response);
        self.findings.pending = None;
        self.room = false;
        id
    }
}
