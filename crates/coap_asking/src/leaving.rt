//! What is taken in a turn of an observation that may be made anew, and how it is left (RFC 7641, section 3.6).
ghost use Rattle.std.specs.Prelude.{◌≡◌, ◌↔◌, ◌+◌, Option, Some, true, false, IfNone, IfOk, IfSome};
ghost use Rattle.coap_client.specs.Led.{Step};
ghost use Rattle.coap_client.specs.Object.Shown.{shown_report};
ghost use Rattle.coap_client.specs.Trace.{Report as ReportSpec, is_value};
ghost use Rattle.coap_waits.specs.Asks.{Turned, takes_report};
ghost use Rattle.coap_waits.specs.Linked.{GoesOver, LeavesOver, PassesNothing};
ghost use Rattle.coap_asking.specs.Observes.{HasGivenUp, WritesTaken};
ghost use Rattle.coap_wires.specs.Waiting.{HasPassed};
ghost use Rattle.coap_asking.specs.Watches.{CancelsAtEnd, IsNoEnd, IsSilent, Leaves, LeavesAt, TakesReport, heard_at};
ghost use Rattle.coap_asking.specs.Watches.{taken};

use crate::anew::Left;
use crate::observe::{Form, is_over, print_value};
use crate::watching::Watching;
use coap_arguments::AskOptions;
use coap_ends::{CallId, Client, Report};
use coap_links::{Link, Tally, get_turn, send_all};
use coap_status::Stop;
use coap_types::Moment;
use coap_waits::{Outcome, next_report_of};
use coap_wires::passed;
use std::alloc::Global;
use std::hash::BuildHasher;
use std::io::Write;

/// What was heard of the registrations so far.
#[derive(Clone, Copy)]
pub(crate) struct Heard {
    /// When the first registration was made.
    pub since: Moment,
    /// How many values came of all of them.
    pub values: u64,
    /// When the last one came of this one, or when it was made.
    pub last: Moment,
}

// A value came at this moment.
fn count(heard: &mut Heard, now: Moment) -> Result<(), Stop>
    ensures { IfOk result (λ _. heard.new ≡ record heard.old { values = heard.old.values + 1; last = now }) }
{
    heard.values = heard.values.checked_add(1).ok_or(Stop::Failed)?;
    heard.last = now;
    Ok(())
}

/// Takes the next report of the observation in a turn at this moment: prints and counts it where it is a value, and
/// else answers it, as it is the last one.
pub(crate) fn last_report<H: BuildHasher, W: Write, E: Write>(
    alloc: Global,
    client: &mut Client<Global, H>,
    id: CallId,
    options: &AskOptions,
    heard: &mut Heard,
    now: Moment,
    out: &mut W,
    err: &mut E,
) -> Result<Option<Report>, Stop>
    ensures last { IfOk result (λ last. IfSome last (λ report. Step client.old
        (takes_report id.0 (shown_report report)) client.new × (is_value (shown_report report) ≡ false)
        × (heard.new ≡ heard.old)
        × WritesTaken options.now heard.old.since.0 heard.old.values now (W.contents out.old) (W.contents out.new)
        (Some (shown_report report)))) }
    ensures more { IfOk result (λ last. IfNone last ((took : Option ReportSpec)
        × TakesReport id.0 took client.old client.new × IsNoEnd took
        × (heard.new.values ≡ heard.old.values + taken took)
        × (heard.new.last.0 ≡ heard_at now.0 took heard.old.last.0) × (heard.new.since ≡ heard.old.since)
        × WritesTaken options.now heard.old.since.0 heard.old.values now (W.contents out.old) (W.contents out.new)
        took)) }
    ensures own { Turned PassesNothing client.old client.new }
{
    let Some(report) = next_report_of(client, id) else {
        return Ok(None);
    };
    let is_over = is_over(options, heard.since, heard.values, now);
    if print_value(alloc, &report, is_over, Form::of(options, now), out, err)? {
        count(heard, now)?;
        return Ok(None);
    }
    Ok(Some(report))
}

// Cancels the observation where it is over (RFC 7641, section 3.6). That is refused, and tried again later, while the
// registration is not answered; and where it is cancelled already.
fn cancel_at_end<H: BuildHasher>(
    client: &mut Client<Global, H>,
    id: CallId,
    options: &AskOptions,
    heard: Heard,
    now: Moment,
)
    ensures cancels { CancelsAtEnd options.now heard.since.0 id.0 now.0 heard.values client.old client.new }
    ensures own { Turned PassesNothing client.old client.new }
{
    if is_over(options, heard.since, heard.values, now) {
        let _answer = client.cancel(now, id);
    }
}

// After how many seconds it is given up, where they have passed and no value came.
fn given_up(options: &AskOptions, heard: Heard, now: Moment) -> Option<u64>
    ensures some { IfSome result (λ seconds. (options.now.give_up ≡ Some seconds) × (heard.values ≡ 0)
        × HasPassed seconds heard.since.0 now.0) }
    ensures none { IfNone result (HasGivenUp options.now heard.since.0 heard.values now.0 → ⊥) }
{
    if heard.values > 0 {
        return None;
    }
    passed(options.give_up, heard.since, now)
}

// Whether no value came for so long, and the observation is not over.
fn is_silent(watching: &Watching<'_, '_>, heard: Heard, now: Moment) -> bool
    ensures { (result ≡ true) ↔ IsSilent watching.now.options.now watching.now.again heard.since.0 heard.values
        heard.last.0 now.0 }
{
    passed(Some(watching.again), heard.last, now).is_some()
        && !is_over(watching.options, heard.since, heard.values, now)
}

// Has the client leave an observation: the server is told once, where it may still answer, and no answer is awaited.
fn leave<H: BuildHasher, L: Link>(
    client: &mut Client<Global, H>,
    link: &mut L,
    id: CallId,
    now: Moment,
    tally: &mut Tally,
)
    ensures leaves { Leaves id.0 now.0 client.old client.new }
    ensures over { LeavesOver L.sends L.receives L.fault_count id.0 now.0 client.old link.old tally.old client.new
        link.new tally.new }
{
    let _answer = client.cancel(now, id);
    get_turn(client, link, now, tally);
    send_all(client, link);
}

/// How the observation is left in a turn at this moment in which no last report was taken, if it is.
pub(crate) fn left_at<H: BuildHasher, L: Link>(
    client: &mut Client<Global, H>,
    link: &mut L,
    id: CallId,
    watching: &Watching<'_, '_>,
    heard: Heard,
    now: Moment,
    tally: &mut Tally,
) -> Option<Left>
    ensures leaves { LeavesAt watching.now.options.now watching.now.again heard.since.0 id.0 heard.values heard.last.0
        now.0 client.old result client.new }
    ensures over { GoesOver L.sends L.receives L.fault_count client.old link.old tally.old client.new link.new
        tally.new }
{
    if let Some(seconds) = given_up(watching.options, heard, now) {
        return Some(Left::Ended(Outcome::GaveUp(seconds)));
    }
    if is_silent(watching, heard, now) {
        leave(client, link, id, now, tally);
        return Some(Left::Silent);
    }
    cancel_at_end(client, id, watching.options, heard, now);
    None
}
