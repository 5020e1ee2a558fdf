//! Notifications to observers, which the application keeps (RFC 7641, section 4).
ghost use Rattle.std.specs.Prelude.{◌≡◌, true, None, IfOk, IfErr, OnOk, OnErr};
ghost use Rattle.coap_exchange.specs.AnswererLaw.{State, Step};
ghost use Rattle.coap_exchange.specs.AnswererTrace.{Ready, Notifies, NotifiesPlain};
ghost use Rattle.coap_exchange.specs.Machine.WhatIsDue.{takes_con};
ghost use Rattle.coap_handlers.specs.Refusals.{IsNotifyRefused};

use crate::refusal::NotifyRefusal;
use crate::responder::Responder;
use crate::response::is_response;
use coap_exchange::Response;
use coap_types::{Endpoint, Id, Moment, Token};
use std::alloc::Allocator;
use std::hash::BuildHasher;

impl<A: Allocator + Copy, S: BuildHasher> Responder<A, S> {
    /// Whether a notification could be sent there now: no Confirmable message to this endpoint is outstanding, and a
    /// Message ID is free (RFC 7252, sections 4.4 and 4.7). Nothing changes.
    pub fn may_notify(&self, now: Moment, to: Endpoint) -> bool
        // A notification could be sent exactly where no CON to there is outstanding and a Message ID is free.
        ensures { result ≡ takes_con self.now.state now.0 to }
    {
        self.answerer.would_notify(now, to)
    }

    /// Sends a notification in a Confirmable message, and answers its Message ID (RFC 7641, sections 4.2 and 4.5). A
    /// request that was handed up before, and one that was called ready, can't be answered then. The word picks the
    /// initial timeout.
    pub fn notify(
        &mut self,
        now: Moment,
        to: Endpoint,
        token: &Token,
        response: &Response<'_>,
        word: u64,
    ) -> Result<Id, NotifyRefusal>
        // A notification makes two calls of the exchanges: whether it may be sent, and the notification.
        ensures step { IfOk result (λ id. (between : State) × Step self.old.state (Ready now.0 to true) between
            × Step between (Notifies now.0 to token.now response.now word id.0) self.new.state) }
        // A notification leaves which request counts as answered.
        ensures given { OnOk result (self.new.given ≡ self.old.given) }
        // Behind a notification no deferred request is ready, until a tick says so again.
        ensures ready { OnOk result (self.new.ready ≡ None) }
        // A notification is refused for what is sent, where none may be sent there, or for want of memory, in this
        // order.
        ensures why { IfErr result (λ why. IsNotifyRefused why self.old now.0 to token.now response.now) }
        // A notification that is refused leaves the responder as it was.
        ensures kept { OnErr result (self.new ≡ self.old) }
    {
        if !is_response(token, response) {
            return Err(NotifyRefusal::BadResponse);
        }
        if !self.answerer.would_notify(now, to) {
            return Err(NotifyRefusal::NotReady);
        }
        match self.answerer.ready(now, to) {
            Ok(true) => {}
            Ok(false) => unreachable!("a notification could be sent"),
            Err(_) => return Err(NotifyRefusal::Memory),
        }
        self.asked = None;
        self.ready = None;
        Ok(self.answerer.notify(now, to, token, response, word))
    }

    /// Sends a notification in a Non-confirmable message, and answers its Message ID (RFC 7641, section 4.5). Nothing
    /// waits for an acknowledgement then, and a Reset of it is `unmatched`. Else as `notify`.
    pub fn notify_plain(
        &mut self,
        now: Moment,
        to: Endpoint,
        token: &Token,
        response: &Response<'_>,
    ) -> Result<Id, NotifyRefusal>
        // A notification in a NON makes two calls of the exchanges: whether it may be sent, and the notification.
        ensures step { IfOk result (λ id. (between : State) × Step self.old.state (Ready now.0 to true) between
            × Step between (NotifiesPlain now.0 to token.now response.now id.0) self.new.state) }
        // A notification in a NON leaves which request counts as answered.
        ensures given { OnOk result (self.new.given ≡ self.old.given) }
        // Behind a notification in a NON no deferred request is ready, until a tick says so again.
        ensures ready { OnOk result (self.new.ready ≡ None) }
        // A notification in a NON is refused for the same reasons as one in a CON.
        ensures why { IfErr result (λ why. IsNotifyRefused why self.old now.0 to token.now response.now) }
        // A notification in a NON that is refused leaves the responder as it was.
        ensures kept { OnErr result (self.new ≡ self.old) }
    {
        if !is_response(token, response) {
            return Err(NotifyRefusal::BadResponse);
        }
        if !self.answerer.would_notify(now, to) {
            return Err(NotifyRefusal::NotReady);
        }
        match self.answerer.ready(now, to) {
            Ok(true) => {}
            Ok(false) => unreachable!("a notification could be sent"),
            Err(_) => return Err(NotifyRefusal::Memory),
        }
        self.asked = None;
        self.ready = None;
        Ok(self.answerer.notify_plain(now, to, token, response))
    }
}
