//! The reports of a client (profile).
ghost use Rattle.std.specs.Prelude.{◌≡◌, ◌<◌};
ghost use Rattle.std.specs.VecDeque.{deque_len, deque_capacity};
ghost use Rattle.coap_client.specs.Effects.{Rests, of};
ghost use Rattle.coap_client.specs.Reports.{done};
ghost use Rattle.coap_client.specs.Steps.{reporting};
ghost use Rattle.coap_client.specs.Object.Held.{own_of};
ghost use Rattle.coap_client.specs.Object.Shown.{shown_report, reported};

use crate::client::held::Held;
use bytes::Bytes;
use coap_types::{Code, Method, Tag};
use std::alloc::{Allocator, Global};

/// The number of a call or of an observation: they are counted from 0 (profile).
#[derive(Clone, Copy, Debug, PartialEq, Eq)]
pub struct CallId(pub u64);

/// A representation that was fetched (RFC 7252, section 5.8.1).
#[derive(Drop)]
#[derive_where(Debug)]
pub struct Fetched<A: Allocator = Global> {
    /// Its entity-tag, where it has one (section 5.10.6).
    pub tag: Option<Tag>,
    /// Its format, where it is told (section 5.10.3).
    pub format: Option<u16>,
    /// Its bytes.
    pub body: Bytes<A>,
}

/// What is reported of a call or an observation. `Value` is not final, each other one is.
#[derive(Drop)]
#[derive_where(Debug)]
pub enum Report<A: Allocator = Global> {
    /// 1: the representation that a GET has.
    Body(Fetched<A>),
    /// 2: a representation that the client has is valid, that of this entity-tag (RFC 7252, section
    /// 5.9.1.3).
    Valid(Option<Tag>),
    /// 3: a POST, a PUT or a DELETE succeeded, with this code (section 5.9.1).
    Done(Code),
    /// 4: a representation of an observed resource, with its sequence number (RFC 7641, section 3.2).
    Value(u32, Fetched<A>),
    /// 5: the server ended the observation, or did not begin it (RFC 7641, section 3.2).
    Ended(Code),
    /// 6: the observation was cancelled (RFC 7641, section 3.6).
    Cancelled,
    /// 7: another response came.
    Failed(Code),
    /// 8: the request was not acknowledged (RFC 7252, section 4.2).
    Timeout,
    /// 9: the request was rejected by a Reset (section 4.2).
    Reset,
    /// 10: no separate response came (section 5.2.2).
    NoResponse,
    /// 11: the representation changed again and again (RFC 7959, section 2.4).
    Changed,
    /// 12: a block is not the one that is awaited (RFC 7959, sections 2.4 and 2.5).
    BadBlock,
    /// 13: one of several blocks has no entity-tag (RFC 7959, section 2.4).
    NoTag,
    /// 14: the body is longer than the client's limit.
    TooLarge,
    /// 15: no Message ID or no token was free (RFC 7252, section 4.4).
    NoIds,
}

/// Makes a report, for which there is room.
pub fn give<A: Allocator + Copy>(held: &mut Held<A>, number: u64, report: Report<A>)
    requires room { deque_len held.old.reports < deque_capacity held.old.reports }
    ensures { own_of held.new
        ≡ reporting (record { own = own_of held.old; report = of number (shown_report report); deed = Rests }) }
{
    let _fits = held.reports.push_back((CallId(number), report));
}

/// .. if there is one.
pub fn give_some<A: Allocator + Copy>(held: &mut Held<A>, number: u64, report: Option<Report<A>>)
    requires room { deque_len held.old.reports < deque_capacity held.old.reports }
    ensures { own_of held.new
        ≡ reporting (record { own = own_of held.old; report = reported number report; deed = Rests }) }
{
    if let Some(report) = report {
        give(held, number, report);
    }
}

/// What is reported of a response of that code to a call (RFC 7252, section 5.9.1).
pub fn code_report<A: Allocator + Copy>(method: Method, code: Code) -> Report<A>
    ensures { shown_report result ≡ done method code.0 }
{
    let success = match method {
        Method::Post | Method::Put => code == Code::CREATED || code == Code::CHANGED,
        Method::Get | Method::Delete => code == Code::DELETED,
    };
    if success {
        Report::Done(code)
    } else {
        Report::Failed(code)
    }
}
