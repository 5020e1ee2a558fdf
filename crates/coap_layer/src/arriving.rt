//! A datagram that arrived: how it is read, judged and answered.
ghost use Rattle.std.specs.Prelude.{◌≡◌, ◌<◌, [], true, false, None, Ok, option_to_list, IfOk, IsOk};
ghost use Rattle.std.specs.Vec.{vec_len, vec_capacity};
ghost use Rattle.coap_layer.specs.Arrivals.{Whole, arrival_at};
ghost use Rattle.coap_layer.specs.Machine.Arriving.{IsArriving, shown_by, told_by, of_head, sent_by, newly_by};
ghost use Rattle.coap_layer.specs.Machine.Arriving.{awaits_by, open_by, ends as ends_lem, hands as hands_lem};
ghost use Rattle.coap_layer.specs.Machine.Arriving.{keeps as keeps_lem};
ghost use Rattle.coap_layer.specs.Machine.Entries.{IsUpTo, arrivals_in};
ghost use Rattle.coap_layer.specs.Machine.Known.{IsKnown};
ghost use Rattle.coap_layer.specs.Machine.Parts.{awaited, open_before};
ghost use Rattle.coap_layer.specs.Rows.{reset_to};
ghost use Rattle.coap_layer.specs.Machine.Sendings.{open_now};
ghost use Rattle.coap_layer.specs.Machine.State.{State, answer_to, is_free, is_remembered};
ghost use Rattle.coap_layer.specs.Machine.Ups.{disposition_of};
ghost use Rattle.coap_layer.specs.Machine.Would.{would_at};

use crate::arrival::{Known, Verdict, classify};
use crate::datagram::Datagram;
use crate::dedup::Memory;
use crate::empty::reset;
use crate::lists::Lists;
use crate::mark::Awaiting;
use crate::retransmission::{Sending, end_all, is_outstanding};
use crate::would::would_by;
use crate::{Up, Would};
use coap_codec::{Fault, View, decode};
use coap_types::{Endpoint, Id, Kind, Moment, Remembered, Role};
use std::alloc::{AllocError, Allocator};
use std::hash::BuildHasher;

/// A datagram that arrived: its type and Message ID, and what becomes of it.
#[derive(Clone, Copy)]
pub(crate) struct Arriving {
    pub(crate) kind: Kind,
    pub(crate) id: Id,
    pub(crate) verdict: Verdict,
}

/// The message of a datagram, or its fault.
pub(crate) fn read(bytes: &[u8]) -> Result<View<'_>, Fault>
    ensures { shown_by result ≡ arrival_at bytes.now }
{
    decode(bytes)
}

// What becomes of a datagram that spells no message.
fn of_fault(fault: &Fault) -> Arriving
    ensures { result ≡ of_head fault.now.head }
{
    match fault.head {
        None => Arriving {
            kind: Kind::Non,
            id: Id(0),
            verdict: Verdict::Drop,
        },
        Some((Kind::Con, id)) => Arriving {
            kind: Kind::Con,
            id,
            verdict: Verdict::Reject,
        },
        Some((kind, id)) => Arriving {
            kind,
            id,
            verdict: Verdict::Drop,
        },
    }
}

// What is known of a message.
fn known_of<A: Allocator + Copy, S: BuildHasher>(
    message: &View<'_>,
    at: Moment,
    from: Endpoint,
    lists: &Lists<A, S>,
    most: Remembered,
    free: bool,
) -> Known
    ensures { (s : State) → s.most ≡ most → s.arrived ≡ arrivals_in lists.now.entries → s.open_cons
        ≡ open_now lists.now.sendings.items
        → is_free at.0 s.upcoming s.last_used ≡ free → IsKnown s at.0 from message.now.id result }
{
    let id = message.id();
    Known {
        outstanding: is_outstanding(&lists.sendings, from, id),
        remembered: lists.entries.is_remembered(at, from, id),
        full: lists.entries.is_full(at, most),
        free,
    }
}

// What becomes of a message.
fn of_message<A: Allocator + Copy, S: BuildHasher>(
    message: &View<'_>,
    at: Moment,
    from: Endpoint,
    lists: &Lists<A, S>,
    most: Remembered,
    free: bool,
) -> Arriving
    ensures { (s : State) → s.most ≡ most → s.arrived ≡ arrivals_in lists.now.entries → s.open_cons
        ≡ open_now lists.now.sendings.items
        → is_free at.0 s.upcoming s.last_used ≡ free
        → IsArriving s at.0 from (shown_by (Ok message.now)) result
        × (told_by result.verdict (Ok message.now) ≡ answer_to s at.0 from (shown_by (Ok message.now))) }
{
    let kind = message.kind();
    let known = known_of(message, at, from, lists, most, free);
    Arriving {
        kind,
        id: message.id(),
        verdict: classify(kind, Role::of(message.code()), known),
    }
}

/// What becomes of a datagram.
#[inline(always)]
pub(crate) fn judge<A: Allocator + Copy, S: BuildHasher>(
    read: &Result<View<'_>, Fault>,
    at: Moment,
    from: Endpoint,
    lists: &Lists<A, S>,
    most: Remembered,
    free: bool,
) -> Arriving
    ensures { (s : State) → s.most ≡ most → s.arrived ≡ arrivals_in lists.now.entries → s.open_cons
        ≡ open_now lists.now.sendings.items
        → is_free at.0 s.upcoming s.last_used ≡ free
        → IsArriving s at.0 from (shown_by read.now) result
        × (told_by result.verdict read.now ≡ answer_to s at.0 from (shown_by read.now)) }
{
    match read {
        Ok(message) => of_message(message, at, from, lists, most, free),
        Err(fault) => of_fault(fault),
    }
}

// What a message would be: the table is asked as things are, and as if a place to remember it were left.
fn message_would<A: Allocator + Copy, S: BuildHasher>(
    message: &View<'_>,
    at: Moment,
    from: Endpoint,
    lists: &Lists<A, S>,
    most: Remembered,
    free: bool,
) -> Would
    ensures { (s : State) → s.most ≡ most → s.arrived ≡ arrivals_in lists.now.entries → s.open_cons
        ≡ open_now lists.now.sendings.items
        → is_free at.0 s.upcoming s.last_used ≡ free → result ≡ would_at s at.0 from (Whole message.now) }
{
    let kind = message.kind();
    let role = Role::of(message.code());
    let known = known_of(message, at, from, lists, most, free);
    let placed = Known {
        full: false,
        ..known
    };
    would_by(classify(kind, role, placed), classify(kind, role, known))
}

/// What a datagram would be.
pub(crate) fn would<A: Allocator + Copy, S: BuildHasher>(
    read: &Result<View<'_>, Fault>,
    at: Moment,
    from: Endpoint,
    lists: &Lists<A, S>,
    most: Remembered,
    free: bool,
) -> Would
    ensures { (s : State) → s.most ≡ most → s.arrived ≡ arrivals_in lists.now.entries → s.open_cons
        ≡ open_now lists.now.sendings.items
        → is_free at.0 s.upcoming s.last_used ≡ free → result ≡ would_at s at.0 from (shown_by read.now) }
{
    match read {
        Ok(message) => message_would(message, at, from, lists, most, free),
        Err(fault) => {
            let verdict = of_fault(fault).verdict;
            would_by(verdict, verdict)
        }
    }
}

/// What the layer above is told.
#[inline(always)]
pub(crate) fn told<'d>(read: Result<View<'d>, Fault>, verdict: Verdict) -> Up<'d>
    ensures { disposition_of result ≡ told_by verdict read.entry }
{
    match (read, verdict) {
        (_, Verdict::Reject) => Up::Rejected,
        (Ok(message), Verdict::TakeAck) => Up::Acked(message.id()),
        (Ok(message), Verdict::TakeReset) => Up::Reset(message.id()),
        (Ok(message), Verdict::PassReset) => Up::Unmatched(message.id()),
        (Ok(_), Verdict::Replay) => Up::Replayed,
        (Ok(message), Verdict::HandUpRequest(remembered)) => Up::Request {
            message,
            remembered,
        },
        (Ok(message), Verdict::HandUpResponse) => Up::Response(message),
        (_, _) => Up::Dropped,
    }
}

// The datagram with the Reset of what came from there (RFC 7252, section 4.2).
fn rejection<A: Allocator + Copy>(alloc: A, to: Endpoint, id: Id) -> Result<Datagram<A>, AllocError>
    ensures { IfOk result (λ d. d ≡ reset_to to id.0) }
{
    let bytes = Vec::from_slice(alloc, &reset(id))?;
    Ok(Datagram { to, bytes })
}

/// What is sent at once.
pub(crate) fn sent<A: Allocator + Copy, S: BuildHasher>(
    alloc: A,
    at: Moment,
    from: Endpoint,
    arriving: Arriving,
    entries: &Memory<A, S>,
) -> Result<Option<Datagram<A>>, AllocError>
    ensures sent { IfOk result (λ d. option_to_list d ≡ sent_by at.0 from (arrivals_in entries.now) arriving) }
    ensures silent { sent_by at.0 from (arrivals_in entries.now) arriving ≡ [] → IsOk result }
{
    match (arriving.verdict, arriving.kind) {
        (Verdict::Reject, _) => Ok(Some(rejection(alloc, from, arriving.id)?)),
        (Verdict::Replay, Kind::Con) => match entries.stored_reply(at, from, arriving.id) {
            Some(reply) => {
                let bytes = Vec::from_slice(alloc, reply)?;
                Ok(Some(Datagram { to: from, bytes }))
            }
            None => Ok(None),
        },
        _ => Ok(None),
    }
}

// Whether a retransmission ends.
fn ends(verdict: Verdict) -> bool
    ensures { result ≡ ends_lem verdict }
{
    matches!(verdict, Verdict::TakeAck | Verdict::TakeReset)
}

/// Whether a Confirmable or Non-confirmable message is handed up: a reply may be given to it.
pub(crate) fn hands(arriving: Arriving) -> bool
    ensures { result ≡ hands_lem arriving.verdict arriving.kind }
{
    match arriving.verdict {
        Verdict::HandUpRequest(_) => true,
        Verdict::HandUpResponse => matches!(arriving.kind, Kind::Con | Kind::Non),
        _ => false,
    }
}

/// Whether it is remembered from now on.
pub(crate) fn keeps(arriving: Arriving) -> bool
    ensures { result ≡ keeps_lem arriving.verdict arriving.kind }
{
    match arriving.verdict {
        Verdict::HandUpRequest(kept) => kept,
        Verdict::HandUpResponse => matches!(arriving.kind, Kind::Con | Kind::Non),
        _ => false,
    }
}

/// What a reply may be given to from now on.
pub(crate) fn awaiting(from: Endpoint, arriving: Arriving) -> Option<Awaiting>
    ensures { awaited result ≡ awaits_by from arriving }
{
    if hands(arriving) {
        Some(Awaiting {
            from,
            id: arriving.id,
        })
    } else {
        None
    }
}

/// Ends the retransmission that is acknowledged or rejected.
pub(crate) fn end_by<A: Allocator + Copy>(
    from: Endpoint,
    arriving: Arriving,
    sendings: &mut Vec<Sending<A>, A>,
)
    ensures open { open_now sendings.new.items ≡ open_by from arriving (open_now sendings.old.items) }
    ensures before { open_before sendings.new.items ≡ open_before sendings.old.items }
    ensures len { vec_len sendings.new ≡ vec_len sendings.old }
    ensures capacity { vec_capacity sendings.new ≡ vec_capacity sendings.old }
{
    if ends(arriving.verdict) {
        end_all(sendings, from, arriving.id);
    }
}

/// Remembers a message that is handed up, for which there is room.
pub(crate) fn keep_by<A: Allocator + Copy, S: BuildHasher>(
    at: Moment,
    from: Endpoint,
    arriving: Arriving,
    entries: &mut Memory<A, S>,
)
    requires spare { keeps_lem arriving.verdict arriving.kind ≡ true → 0 < entries.old.spare }
    requires unknown { keeps_lem arriving.verdict arriving.kind ≡ true
        → is_remembered at.0 from arriving.id.0 entries.old.settled ≡ false }
    requires up_to { IsUpTo at.0 entries.old.settled }
    requires newest { entries.old.newest ≡ None }
    ensures settled { entries.new.settled ≡ entries.old.settled }
    ensures newest { option_to_list entries.new.newest ≡ newly_by at.0 from arriving }
{
    if keeps(arriving) {
        let con = arriving.kind == Kind::Con;
        entries.remember(at, from, arriving.id, con);
    }
}
