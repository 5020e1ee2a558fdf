//! A call that the client took: what it sends next, and what it makes of the answer.
ghost use Rattle.std.specs.Prelude.{◌≡◌, ℕ, Bool, false, true, [], List, Some, IsOk, IsSome, IfOk, OnErr};
ghost use Rattle.coap_client.specs.Calls.{answer};
ghost use Rattle.coap_client.specs.Effects.{is_upload, has_sent};
ghost use Rattle.coap_client.specs.Own.{Observation, Calling};
ghost use Rattle.coap_client.specs.Queue.{transfer_of};
ghost use Rattle.coap_client.specs.Requests.{message_of};
ghost use Rattle.coap_client.specs.Object.CallShown.{is_long, shown_request};
ghost use Rattle.coap_client.specs.Object.Sends.{Sends};
ghost use Rattle.coap_client.specs.Object.AnswerSteps.{Hears};

use crate::client::get_answer::hear_get;
use crate::client::heard::Heard;
use crate::client::parts::Now;
use crate::client::report::code_report;
use crate::client::request::ask;
use crate::client::request_options::{bytes_in, format_value, push_call};
use crate::client::transfer::{Transfer, block_of, payload_of};
use crate::client::upload::{hear_upload, is_longer};
use bytes::Bytes;
use coap_block::{Fetch, Upload};
use coap_codec::View;
use coap_exchange::{Ask, Asker};
use coap_types::{BodyLimit, Method, OptionList, Request, Szx, Token};
use std::alloc::{AllocError, Allocator, Global};
use std::hash::BuildHasher;
use std::marker::Model;
use std::mem;

/// A call that was taken: its request, whose body the transfer has, and how far it is. The options of
/// its longest message fit (RFC 7252, section 4.6).
#[derive(Drop)]
pub struct TakenCall<A: Allocator = Global> {
    request: Request<A>,
    transfer: Transfer<A>,
}

impl<A: Allocator> Model for TakenCall<A> {
    ghost use Rattle.std.specs.Prelude.{◌≡◌, false};
    ghost use Rattle.coap_client.specs.Object.CallShown.{CallState, FitsMethod, is_long, shown_before};
    ghost use Rattle.coap_client.specs.Object.CallShown.{shown_request, shown_transfer};

    ghost Value = { CallState };

    ghost view = { λ c. record {
      request = shown_request c.request;
      transfer = shown_transfer c.transfer;
      before =
          shown_before c.transfer;
    } };

    ghost invariant = { λ c. (is_long (shown_request c.request) ≡ false)
        × FitsMethod c.request.method (shown_transfer c.transfer) };
}

impl<A: Allocator + Copy> TakenCall<A> {
    /// A call of that request, which is not too long, at its start.
    pub fn new(alloc: A, szx: Szx, limit: BodyLimit, mut request: Request<A>) -> TakenCall<A>
        requires short { is_long (shown_request request) ≡ false }
        ensures request { result.request ≡ record (shown_request request) { body = [] } }
        ensures transfer { result.transfer ≡ transfer_of (record { szx = szx; limit = limit }) (shown_request request)
            request.method }
    {
        let body = mem::replace(&mut request.body, Bytes::new());
        let transfer = match request.method {
            Method::Get => Transfer::Fetches(Fetch::with_limit(alloc, szx, limit)),
            Method::Post | Method::Put => Transfer::Uploads(Upload::new(body, szx)),
            Method::Delete => Transfer::Single,
        };
        TakenCall { request, transfer }
    }

    /// What the call makes of the answer to its request. After an `Err` it is as before.
    pub fn hear(&mut self, m: &View<'_>) -> Result<Heard<A>, AllocError>
        ensures hears { IfOk result (λ heard. Hears self.old
            (answer self.old.request self.old.transfer m.now) heard self.new) }
        ensures request { OnErr result (self.new.request ≡ self.old.request) }
        ensures transfer { OnErr result (self.new.transfer ≡ self.old.transfer) }
    {
        match &mut self.transfer {
            Transfer::Fetches(fetch) => hear_get(fetch, &self.request, m),
            Transfer::Uploads(upload) => Ok(hear_upload(upload, self.request.method, m)),
            Transfer::Single => Ok(Heard::Over {
                is_final: true,
                report: code_report(self.request.method, m.code()),
            }),
        }
    }

    /// Takes the last answer back, for which a request was to follow.
    pub fn undo(&mut self)
        requires { IsSome self.old.before }
        ensures back { self.old.before ≡ Some self.new.transfer }
        ensures request { self.new.request ≡ self.old.request }
    {
        match &mut self.transfer {
            Transfer::Fetches(fetch) => fetch.undo(),
            Transfer::Uploads(upload) => upload.undo(),
            Transfer::Single => {}
        }
    }

    /// Whether it is a Block1 transfer (RFC 7959, section 2.5).
    pub fn is_upload(&self) -> bool
        ensures { result ≡ is_upload self.now.transfer }
    {
        match &self.transfer {
            Transfer::Uploads(upload) => is_longer(upload),
            Transfer::Fetches(_) | Transfer::Single => false,
        }
    }

    /// Whether a block of its body was taken.
    pub fn has_sent(&self) -> bool
        ensures { result ≡ has_sent self.now.transfer }
    {
        match &self.transfer {
            Transfer::Uploads(upload) => upload.next().0.num > 0,
            Transfer::Fetches(_) | Transfer::Single => false,
        }
    }

    /// Sends its next request, and answers the token of that.
    pub fn send<H: BuildHasher>(
        &self,
        asker: &mut Asker<A, H>,
        now: Now,
    ) -> Result<Option<Token>, AllocError>
        ensures sends { IfOk result (λ token. (os : List Observation) (number : ℕ)
            → Sends asker.old.state now.at.0
            (message_of os (Calling number self.now.request self.now.transfer)) now.word token
            asker.new.state) }
        ensures before { asker.new.before ≡ asker.old.before }
        ensures err { OnErr result (asker.new ≡ asker.old) }
        ensures had { asker.old.has_room ≡ true → IsOk result }
    {
        self.request.ranges();
        let format = format_value(&self.request);
        let (number, block) = block_of(&self.transfer);
        let mut options = OptionList::new();
        let (format, block) = (bytes_in(&format), bytes_in(&block));
        push_call(&mut options, &self.request, format, number, block);
        let request = Ask {
            method: self.request.method,
            token: None,
            options: options.as_slice(),
            payload: payload_of(&self.transfer),
        };
        ask(asker, &request, now)
    }
}
