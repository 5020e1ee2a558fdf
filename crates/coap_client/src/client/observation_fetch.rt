//! What is fetched for a notification (RFC 7641, section 3.4; RFC 7959, section 2.6).
ghost use Rattle.std.specs.Prelude.{◌≡◌, ◌<◌, ◌≤◌, ℕ, None, Some, true, is_some, IfOk, IsSome, OnErr};
ghost use Rattle.std.specs.VecDeque.{deque_len, deque_capacity};
ghost use Rattle.std.specs.Option.{option_map};
ghost use Rattle.coap_block.specs.FetchStep.{FetchState};
ghost use Rattle.coap_client.specs.Fetching.{fetch_answered, rest as rest_after, value};
ghost use Rattle.coap_client.specs.Observing.{first_rest, first_value};
ghost use Rattle.coap_client.specs.Effects.{runs};
ghost use Rattle.coap_client.specs.Observations.{observation_of, rest_of};
ghost use Rattle.coap_client.specs.Own.{Fetching};
ghost use Rattle.coap_client.specs.Places.{in_observations};
ghost use Rattle.coap_client.specs.Responses.{part, sequence_in};
ghost use Rattle.coap_client.specs.Object.Happens.{Apart, Happens, resting, running};
ghost use Rattle.coap_client.specs.Object.Held.{own_of, seen};
ghost use Rattle.coap_client.specs.Object.Shown.{reported, shown_asked, shown_rest};
ghost use Rattle.coap_client.specs.Object.AnswerSteps.{CanTakeBack, rest_by, value_by, verdict_on};

use crate::client::get_answer::representation;
use crate::client::heard::Part;
use crate::client::held::Held;
use crate::client::last_request::SentRequest;
use crate::client::observations;
use crate::client::operation::Notified;
use crate::client::parts::{Now, Parts};
use crate::client::report::{Report, give};
use crate::client::request::{get, note_sending};
use crate::client::request_options::bytes_in;
use crate::client::responses::take_part;
use crate::client::transfer::block2_of;
use coap_block::{Fetch, Step};
use coap_codec::View;
use coap_types::{BodyLimit, Code, Szx};
use std::alloc::{AllocError, Allocator};
use std::hash::BuildHasher;

/// A notification's own part is the first: what is left to be fetched, and what is reported.
pub fn first_part<A: Allocator + Copy>(
    alloc: A,
    szx: Szx,
    limit: BodyLimit,
    sequence: u32,
    m: &View<'_>,
) -> Result<(Option<Notified<A>>, Option<Report<A>>), AllocError>
    ensures rest { sequence ≡ sequence_in m.now
        → IfOk result (λ r. option_map shown_rest r.0 ≡ first_rest (record { szx = szx; limit = limit }) m.now) }
    ensures value { (number : ℕ) → sequence ≡ sequence_in m.now
        → IfOk result (λ r. reported number r.1
        ≡ first_value number (record { szx = szx; limit = limit }) m.now) }
{
    let mut rest = Notified {
        sequence,
        fetch: Fetch::with_limit(alloc, szx, limit),
    };
    match take(&mut rest, m)? {
        Part::Asks => Ok((Some(rest), None)),
        Part::Whole(report) => Ok((None, Some(report))),
        Part::Useless => Ok((None, None)),
    }
}

/// What is fetched for a notification takes a part of it (RFC 7959, section 2.6).
pub fn take<A: Allocator + Copy>(
    rest: &mut Notified<A>,
    m: &View<'_>,
) -> Result<Part<A>, AllocError>
    ensures rest { IfOk result (λ p. rest_by p (shown_rest rest.new)
        ≡ rest_after rest.old.sequence rest.old.fetch.state m.now (part rest.old.fetch.state m.now)) }
    ensures value { (number : ℕ) → IfOk result
        (λ p. value_by number p ≡ value number rest.old.sequence rest.old.fetch.state m.now
        (part rest.old.fetch.state m.now)) }
    ensures back { IfOk result (λ p. CanTakeBack p rest.old.fetch.state rest.new.fetch) }
    ensures sequence { rest.new.sequence ≡ rest.old.sequence }
    ensures err { OnErr result (rest.new.fetch.state ≡ rest.old.fetch.state) }
{
    match take_part(&mut rest.fetch, m)? {
        Step::Next(_) => Ok(Part::Asks),
        Step::Whole(body) => Ok(Part::Whole(Report::Value(rest.sequence, representation(m, body)))),
        Step::Restart => Ok(Part::Useless),
        Step::Refused(_) => Ok(Part::Useless),
    }
}

/// What the answer to a fetch makes of a client. After an `Err` it is as before.
pub fn hear_rest<A: Allocator + Copy, H: BuildHasher>(
    parts: &mut Parts<A, H>,
    now: Now,
    number: u64,
    m: &View<'_>,
) -> Result<Option<SentRequest>, AllocError>
    requires room { deque_len parts.old.held.reports < deque_capacity parts.old.held.reports }
    requires apart { Apart (own_of parts.old.held) }
    requires idle { parts.old.held.operations.running ≡ None }
    ensures happens { IfOk result (λ asked. Happens parts.old.asker.state
        (fetch_answered number (rest_of number (own_of parts.old.held).observations) (own_of parts.old.held) m.now)
        now.at.0 now.word (shown_asked asked) (seen parts.new)) }
    ensures held { OnErr result (own_of parts.new.held ≡ running (Fetching number) (own_of parts.old.held)) }
    ensures before { parts.new.asker.before ≡ parts.old.asker.before }
{
    let Some(mut rest) = observations::take_rest(&mut parts.held.operations, number) else {
        return Ok(None);
    };
    match take_if_content(&mut rest, m) {
        Ok(Part::Asks) => ask_next(parts, now, number, rest),
        Ok(Part::Whole(report)) => {
            give(&mut parts.held, number, report);
            Ok(None)
        }
        Ok(Part::Useless) => Ok(None),
        Err(refused) => {
            observations::set_rest(&mut parts.held.operations, number, Some(rest));
            parts.held.operations.fetch(number);
            Err(refused)
        }
    }
}

// What is fetched takes the part of a 2.05, and of no other answer.
fn take_if_content<A: Allocator + Copy>(
    rest: &mut Notified<A>,
    m: &View<'_>,
) -> Result<Part<A>, AllocError>
    ensures rest { IfOk result (λ p. rest_by p (shown_rest rest.new)
        ≡ rest_after rest.old.sequence rest.old.fetch.state m.now (verdict_on rest.old.fetch.state m.now)) }
    ensures value { (number : ℕ) → IfOk result
        (λ p. value_by number p ≡ value number rest.old.sequence rest.old.fetch.state m.now
        (verdict_on rest.old.fetch.state m.now)) }
    ensures back { IfOk result (λ p. CanTakeBack p rest.old.fetch.state rest.new.fetch) }
    ensures sequence { rest.new.sequence ≡ rest.old.sequence }
    ensures err { OnErr result (rest.new.fetch.state ≡ rest.old.fetch.state) }
{
    if m.code() == Code::CONTENT {
        take(rest, m)
    } else {
        Ok(Part::Useless)
    }
}

// The next block is asked for. After an `Err` the part is taken back.
fn ask_next<A: Allocator + Copy, H: BuildHasher>(
    parts: &mut Parts<A, H>,
    now: Now,
    number: u64,
    mut rest: Notified<A>,
) -> Result<Option<SentRequest>, AllocError>
    requires there { is_some (observation_of number (own_of parts.old.held).observations) ≡ true }
    requires room { deque_len parts.old.held.reports < deque_capacity parts.old.held.reports }
    requires apart { Apart (own_of parts.old.held) }
    requires before { IsSome rest.fetch.before }
    requires idle { parts.old.held.operations.running ≡ None }
    ensures happens { IfOk result (λ asked. Happens parts.old.asker.state
        (runs (Fetching number) (resting number (Some (shown_rest rest)) (own_of parts.old.held))) now.at.0 now.word
        (shown_asked asked) (seen parts.new)) }
    ensures held { OnErr result ((before : FetchState) → rest.fetch.before ≡ Some before
        → own_of parts.new.held ≡ running (Fetching number)
        (resting number (Some (record { sequence = rest.sequence; fetch = before })) (own_of parts.old.held))) }
    ensures before { parts.new.asker.before ≡ parts.old.asker.before }
{
    let block = block2_of(&rest.fetch);
    let path = observations::segments_of(&parts.held.operations, number);
    match get(&mut parts.asker, None, None, path, bytes_in(&block), now) {
        Ok(given) => {
            resume(&mut parts.held, number, rest);
            Ok(note_sending(parts, now.at, given))
        }
        Err(refused) => {
            rest.fetch.undo();
            resume(&mut parts.held, number, rest);
            Err(refused)
        }
    }
}

// The fetch runs, with that still to be fetched.
fn resume<A: Allocator + Copy>(held: &mut Held<A>, number: u64, rest: Notified<A>)
    requires one { in_observations number (own_of held.old).observations ≤ 1 }
    requires idle { held.old.operations.running ≡ None }
    ensures own { own_of held.new ≡ running (Fetching number)
        (resting number (Some (shown_rest rest)) (own_of held.old)) }
    ensures reports { held.new.reports ≡ held.old.reports }
{
    observations::set_rest(&mut held.operations, number, Some(rest));
    held.operations.fetch(number);
}
