//! The reports that a client hands out.
ghost use Rattle.std.specs.Prelude.{◌≡◌, ◌≢◌, ◌⊎◌, ◌<◌, true, false, length, take, unwrap_or, [], None, Some, Option};
ghost use Rattle.std.specs.Option.{option_map};
ghost use Rattle.coap_client.specs.Object.Shown.{shown_report, shown_reported};
ghost use Rattle.coap_client.specs.Trace.{Reported};
ghost use Rattle.knifesilver.specs.Answers.{IsAnswered, IsRefused};
ghost use Rattle.knifesilver.specs.ClientHeld.{HoldsClient, IsClient};
ghost use Rattle.knifesilver.specs.Reports.{IsLong, IsTold, ReportAnswers, Taken, beside};
ghost use Rattle.knifesilver.specs.Reports.{body_in, code_in, format_in, kind_of, sequence_in, tag_in};
ghost use Rattle.knifesilver.specs.ShortBytes.{AreIn};
ghost use Rattle.knifesilver.specs.declared.held.Held.TheVariants.{Client as ClientHeld};

use crate::answers::{DONE, NOT_LIVE, NOTHING, SMALL_ROOM};
use crate::crossing::{copy_out, format_number, tag_of};
use crate::handle::KsHandle;
use crate::held::{Held, OurClient};
use coap_ends::{CallId, Report};
use coap_types::Tag;
use std::alloc::Global;

/// C's `ks_report`: a report, beside the body that it may have.
#[repr(C)]
#[derive(Clone, Copy)]
pub struct KsReport {
    /// Of which call or observation.
    pub id: u64,
    /// How many bytes the body has.
    pub body_len: usize,
    /// The format of the body, or -1.
    pub format: i32,
    /// The sequence number of a Value.
    pub sequence: u32,
    /// The number of the report, 1 to 15.
    pub kind: u8,
    /// The code of a Done, an Ended or a Failed, or 0.
    pub code: u8,
    /// How many bytes the entity-tag has, or 0.
    pub tag_len: u8,
    /// The entity-tag.
    pub tag: [u8; 8],
}

// The number of a report.
fn kind_of(report: &Report) -> u8
    ensures { result ≡ kind_of (shown_report report.now) }
{
    match report {
        Report::Body(_) => 1,
        Report::Valid(_) => 2,
        Report::Done(_) => 3,
        Report::Value(_, _) => 4,
        Report::Ended(_) => 5,
        Report::Cancelled => 6,
        Report::Failed(_) => 7,
        Report::Timeout => 8,
        Report::Reset => 9,
        Report::NoResponse => 10,
        Report::Changed => 11,
        Report::BadBlock => 12,
        Report::NoTag => 13,
        Report::TooLarge => 14,
        Report::NoIds => 15,
    }
}

// Its code, or 0.
fn code_in(report: &Report) -> u8
    ensures { result ≡ code_in (shown_report report.now) }
{
    match report {
        Report::Done(code) | Report::Ended(code) | Report::Failed(code) => code.0,
        _ => 0,
    }
}

// Its sequence number, or 0.
fn sequence_in(report: &Report) -> u32
    ensures { result ≡ sequence_in (shown_report report.now) }
{
    match report {
        Report::Value(sequence, _) => *sequence,
        _ => 0,
    }
}

// No entity-tag.
const NO_TAG: ([u8; 8], u8) = ([0; 8], 0);

// An entity-tag that there may be.
fn short_tag(tag: &Option<Tag>) -> ([u8; 8], u8)
    ensures { AreIn (unwrap_or tag.now []) result.0 result.1 }
{
    match tag {
        Some(tag) => tag_of(tag),
        None => NO_TAG,
    }
}

// Its entity-tag.
fn tag_in(report: &Report) -> ([u8; 8], u8)
    ensures { AreIn (tag_in (shown_report report.now)) result.0 result.1 }
{
    match report {
        Report::Body(of) => short_tag(&of.tag),
        Report::Valid(tag) => short_tag(tag),
        Report::Value(_, of) => short_tag(&of.tag),
        _ => NO_TAG,
    }
}

// Its format.
fn format_in(report: &Report) -> Option<u16>
    ensures { result ≡ format_in (shown_report report.now) }
{
    match report {
        Report::Body(of) => of.format,
        Report::Value(_, of) => of.format,
        _ => None,
    }
}

// Its body, which is empty where it has none.
fn body_in(report: &Report) -> &[u8]
    ensures { result.now ≡ body_in (shown_report report.now) }
{
    match report {
        Report::Body(of) => of.body.as_slice(),
        Report::Value(_, of) => of.body.as_slice(),
        _ => &[],
    }
}

// The report as C sees it.
fn told(id: CallId, report: &Report) -> KsReport
    ensures { IsTold result (shown_reported (id, report.now)) }
{
    let (tag, tag_len) = tag_in(report);
    KsReport {
        id: id.0,
        body_len: body_in(report).len(),
        format: format_number(format_in(report)),
        sequence: sequence_in(report),
        kind: kind_of(report),
        code: code_in(report),
        tag_len,
        tag,
    }
}

// Tells a report, and its body at the front of the room; false where that does not fit.
fn tell(id: CallId, next: &Report, report: &mut KsReport, room: &mut [u8]) -> bool
    ensures told { IsTold report.new (shown_reported (id, next.now)) }
    ensures body { result ≡ true → take (length (body_in (shown_report next.now))) room.new
        ≡ body_in (shown_report next.now) }
    ensures long { result ≡ false → length room.old < length (body_in (shown_report next.now)) }
{
    *report = told(id, next);
    copy_out(room, body_in(next))
}

// The report that waits beside the client, or else its next one.
fn take_next(client: &mut OurClient) -> Option<(CallId, Report)>
    ensures taken { Taken (option_map shown_reported result) (Some (ClientHeld client.old)) (Some (ClientHeld client.new)) }
    ensures none { client.new.report ≡ None }
{
    match client.report.take() {
        Some(kept) => Some(kept),
        None => client.client.next_report(),
    }
}

// Gives the report that waits, or else takes the next one, which waits where its body does not fit.
fn next_of(client: &mut OurClient, report: &mut KsReport, room: &mut [u8]) -> i32
    ensures led { IsAnswered result → (next : Option Reported)
        × Taken next (Some (ClientHeld client.old)) (Some (ClientHeld client.new))
        × (beside (Some (ClientHeld client.new)) ≡ None) × ReportAnswers result report.new room.new next }
    ensures long { result ≡ SMALL_ROOM → (next : Reported)
        × Taken (Some next) (Some (ClientHeld client.old)) (Some (ClientHeld client.new))
        × (beside (Some (ClientHeld client.new)) ≡ Some next) × IsLong report.new (length room.old) next }
    ensures room { IsRefused result → result ≡ SMALL_ROOM }
{
    match take_next(client) {
        Some((id, next)) => {
            if tell(id, &next, report, room) {
                DONE
            } else {
                client.report = Some((id, next));
                SMALL_ROOM
            }
        }
        None => NOTHING,
    }
}

// .. of the client that is held.
fn next_report(held: &mut Held, report: &mut KsReport, room: &mut [u8]) -> i32
    ensures led { IsAnswered result → (next : Option Reported) × Taken next (Some held.old) (Some held.new)
        × (beside (Some held.new) ≡ None) × ReportAnswers result report.new room.new next }
    ensures long { result ≡ SMALL_ROOM → (next : Reported) × Taken (Some next) (Some held.old) (Some held.new)
        × (beside (Some held.new) ≡ Some next) × IsLong report.new (length room.old) next }
    ensures kept { IsRefused result → result ≢ SMALL_ROOM → held.new ≡ held.old }
    ensures live { IsClient held.old → result ≢ NOT_LIVE }
    ensures why { IsRefused result → (result ≡ SMALL_ROOM) ⊎ (result ≡ NOT_LIVE) }
{
    match held {
        Held::Client(client) => next_of(client, report, room),
        Held::Server(_) | Held::Names(_) => NOT_LIVE,
    }
}

/// Takes the report that is to be taken next, and writes its body to the front of the room: 1, or 0 where there
/// is none. Where the room is too small, it says how many bytes the body has, and the report is given again.
#[unsafe(no_mangle)]
pub extern "C" fn ks_client_next_report(
    alloc: Global,
    handle: &mut KsHandle,
    report: &mut KsReport,
    room: &mut [u8],
) -> i32
    // A report that is given is the one that waited beside the client, which is not called, or else just the next one of the
    // client in the handle; none waits then.
    ensures led { IsAnswered result → (next : Option Reported) × Taken next handle.old.held handle.new.held
        × (beside handle.new.held ≡ None) × ReportAnswers result report.new room.new next }
    // A report whose body is longer than the room is told without it, and waits beside the client.
    ensures long { result ≡ SMALL_ROOM → (next : Reported) × Taken (Some next) handle.old.held handle.new.held
        × (beside handle.new.held ≡ Some next) × IsLong report.new (length room.old) next }
    // Where a handle has no client to report, it holds what it held.
    ensures kept { IsRefused result → result ≢ SMALL_ROOM → handle.new.held ≡ handle.old.held }
    // `next_report` never says of a handle with a client that it holds none.
    ensures live { HoldsClient handle.old.held → result ≢ NOT_LIVE }
    // To take a report is refused for a room that is too small or for want of a client in the handle, and for
    // nothing else.
    ensures why { IsRefused result → (result ≡ SMALL_ROOM) ⊎ (result ≡ NOT_LIVE) }
{
    let Some(mut held) = handle.take(alloc) else {
        return NOT_LIVE;
    };
    let answer = next_report(held.as_mut(), report, room);
    handle.put(held);
    answer
}
