//! How an operation ends without an answer, and how an observation ends.
ghost use Rattle.std.specs.Prelude.{◌≡◌, ◌<◌, ◌≤◌, ◌==◌, Bool, not, filter, map};
ghost use Rattle.std.specs.VecDeque.{deque_len, deque_capacity};
ghost use Rattle.coap_client.specs.Effects.{ends, held_by, of};
ghost use Rattle.coap_client.specs.Observing.{is_over, releases};
ghost use Rattle.coap_client.specs.Observations.{observation_of, over};
ghost use Rattle.coap_client.specs.Places.{in_observations};
ghost use Rattle.coap_client.specs.Steps.{reporting};
ghost use Rattle.coap_client.specs.Object.Happens.{failing, releasing, Apart, IsDone};
ghost use Rattle.coap_client.specs.Object.Held.{own_of, seen};
ghost use Rattle.coap_client.specs.Object.Shown.{shown_report, shown_reported};
ghost use Rattle.coap_client.specs.Queue.{may_forget};
ghost use Rattle.coap_client.specs.Led.{Step};
ghost use Rattle.coap_client.specs.Trace.{Forgets};

use crate::client::held::Held;
use crate::client::observations;
use crate::client::observations::{is_cancelled, is_live};
use crate::client::operation::Waiting;
use crate::client::parts::Parts;
use crate::client::report::{CallId, Report, give};
use crate::client::taken_call::TakenCall;
use coap_exchange::Asker;
use coap_operations::Running;
use coap_types::Token;
use std::alloc::Allocator;
use std::collections::VecDeque;
use std::hash::BuildHasher;

/// A call ends, with its last report: a Block1 transfer without a final response holds back the later
/// ones (profile).
pub fn end_call<A: Allocator + Copy>(
    held: &mut Held<A>,
    number: u64,
    call: &TakenCall<A>,
    unanswered: bool,
    report: Report<A>,
)
    requires room { deque_len held.old.reports < deque_capacity held.old.reports }
    ensures { own_of held.new
        ≡ reporting (ends (of number (shown_report report)) (held_by unanswered call.now.transfer (own_of held.old))) }
{
    if unanswered && call.is_upload() {
        held.hold = Some(held.sent);
    }
    held.operations.finish();
    give(held, number, report);
}

/// An observation is over, with its last report; its token is kept no more.
pub fn end_observation<A: Allocator + Copy, H: BuildHasher>(
    parts: &mut Parts<A, H>,
    number: u64,
    report: Report<A>,
)
    requires room { deque_len parts.old.held.reports < deque_capacity parts.old.held.reports }
    requires one { in_observations number (own_of parts.old.held).observations ≤ 1 }
    ensures own { own_of parts.new.held ≡ reporting (is_over number (shown_report report) (own_of parts.old.held)) }
    ensures deed { IsDone parts.old.asker.state (is_over number (shown_report report) (own_of parts.old.held)).deed
        parts.new.asker.state }
    ensures before { parts.new.asker.before ≡ parts.old.asker.before }
{
    leave(parts, number);
    give(&mut parts.held, number, report);
}

/// An observation is over: its token is kept no more, its cancel leaves the queue, and what is fetched
/// for it no longer counts.
pub fn leave<A: Allocator + Copy, H: BuildHasher>(parts: &mut Parts<A, H>, number: u64)
    requires one { in_observations number (own_of parts.old.held).observations ≤ 1 }
    ensures own { own_of parts.new.held ≡ over number (own_of parts.old.held) }
    ensures reports { parts.new.held.reports ≡ parts.old.held.reports }
    ensures deed { IsDone parts.old.asker.state (releases (observation_of number (own_of parts.old.held).observations))
        parts.new.asker.state }
    ensures before { parts.new.asker.before ≡ parts.old.asker.before }
{
    let token = observations::token_of(&parts.held.operations, number);
    let_go(&mut parts.asker, token);
    parts.held.operations.drop_cancel(number);
    parts.held.operations.drop_fetch(number);
    observations::remove(&mut parts.held.operations, number);
}

// A token is kept no more, if there is one.
fn let_go<A: Allocator + Copy, H: BuildHasher>(asker: &mut Asker<A, H>, token: Option<Token>)
    ensures done { IsDone asker.old.state (releasing token) asker.new.state }
    ensures before { asker.new.before ≡ asker.old.before }
{
    if let Some(token) = token {
        let _kept = asker.release(&token);
    }
}

/// The operation that runs ends without an answer: its exchange failed, or (`unsent`) its request could
/// not be sent.
pub fn fail<A: Allocator + Copy, H: BuildHasher>(
    parts: &mut Parts<A, H>,
    unsent: bool,
    report: Report<A>,
)
    requires room { deque_len parts.old.held.reports < deque_capacity parts.old.held.reports }
    requires apart { Apart (own_of parts.old.held) }
    ensures own { own_of parts.new.held ≡ reporting (failing unsent (shown_report report) (own_of parts.old.held)) }
    ensures deed { IsDone parts.old.asker.state (failing unsent (shown_report report) (own_of parts.old.held)).deed
        parts.new.asker.state }
    ensures before { parts.new.asker.before ≡ parts.old.asker.before }
{
    match parts.held.operations.take_running() {
        None | Some(Running::Dropped) => {}
        Some(Running::Started(Waiting::Calling(number, call))) => {
            let unanswered = !unsent || call.has_sent();
            end_call(&mut parts.held, number, &call, unanswered, report);
        }
        Some(Running::Started(Waiting::Registering(number, _))) => {
            give(&mut parts.held, number, report);
        }
        Some(Running::Fetching(number)) => {
            observations::set_rest(&mut parts.held.operations, number, None);
        }
        Some(Running::Cancelling(number)) => end_observation(parts, number, report),
    }
}

/// Forgets an observation, without a message: a later notification is rejected, which ends it at the
/// server (RFC 7641, section 3.6). False where it is not live, or its cancel waits or runs. It takes
/// no memory.
pub fn forget<A: Allocator + Copy, H: BuildHasher>(parts: &mut Parts<A, H>, id: CallId) -> bool
    requires apart { Apart (own_of parts.old.held) }
    ensures step { (kept : Bool) × Step (seen parts.old) (Forgets id.0 kept result)
        (seen parts.new) }
    ensures before { parts.new.asker.before ≡ parts.old.asker.before }
{
    let may = may_forget(&parts.held, id.0);
    if may {
        leave(parts, id.0);
        withdraw(&mut parts.held.reports, id.0);
    }
    may
}

// Whether it is live, and not yet being cancelled.
fn may_forget<A: Allocator + Copy>(held: &Held<A>, number: u64) -> bool
    ensures { result ≡ may_forget (own_of held.now) number }
{
    is_live(held, number) && !is_cancelled(held, number)
}

// The reports of that observation are given no more.
fn withdraw<A: Allocator + Copy>(reports: &mut VecDeque<(CallId, Report<A>), A>, number: u64)
    ensures { map shown_reported reports.new.items
        ≡ filter (λ r. not (r.number == number)) (map shown_reported reports.old.items) }
{
    reports.retain(|report| report.0.0 != number);
}
