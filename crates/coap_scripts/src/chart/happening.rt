//! What happens at an end, in words.
ghost use Rattle.std.specs.Prelude.{◌≡◌, ◌++◌, Some, codes, decimal};
ghost use Rattle.std.specs.Fmt.{WritesOnOk};
ghost use Rattle.coap_scripts.specs.Happenings.{age_words, answer_words, applied_words, asked_words, call_name};
ghost use Rattle.coap_scripts.specs.Happenings.{cancel_words, change_words, gone_words, happening_text, id_words};
ghost use Rattle.coap_scripts.specs.Happenings.{known_words, made_words, method_name, put_words, refusal_words};
ghost use Rattle.coap_scripts.specs.Happenings.{removal_words, request_words, whose_words};
ghost use Rattle.coap_scripts.specs.ReportWords.{report_words};

use crate::chart::age::Age;
use crate::report_words::ReportWords;
use coap_ends::{CallId, CallRefusal, CancelRefusal, Report};
use coap_print::{EndpointWords, PathWords, write_len};
use coap_resource::StoreRefusal;
use coap_run::{AppliedRequest, Kind, What};
use coap_types::{Endpoint, Method, Path};
use std::alloc::Allocator;
use std::fmt;

/// What a line of a record tells, of an event that asked for this; and how old is what it reports.
#[derive(Clone, Copy)]
pub(super) struct Happening<'a, A: Allocator + Copy> {
    pub(super) what: &'a What<A>,
    pub(super) kind: &'a Kind<A>,
    pub(super) age: Option<Age>,
}

impl<'a, A: Allocator + Copy> fmt::Display for Happening<'a, A> {
    ghost output = { λ h. Some (happening_text h.what.now h.age h.kind.now) };

    fn fmt<W: fmt::Write>(&self, f: &mut fmt::Formatter<W>) -> fmt::Result {
        match self.kind {
            Kind::Takes(answer) => write_taken(f, self.what, *answer),
            Kind::Cancels(answer) => write_cancelled(f, self.what, *answer),
            Kind::Forgets(is_known) => write_forgotten(f, self.what, *is_known),
            Kind::Puts(answer) => write_set(f, self.what, *answer),
            Kind::Removes(answer) => write_removed(f, self.what, *answer),
            Kind::Applies(request) => write_applied(f, request),
            Kind::Reports(id, report) => write_report(f, *id, report, self.age),
            Kind::Refused => f.write_str("no memory: this counts as lost"),
            Kind::Begins(_) | Kind::Changes(_) | Kind::Out => Ok(()),
        }
    }
}

// A report, and how old is what it shows.
fn write_report<A: Allocator + Copy, W: fmt::Write>(
    f: &mut fmt::Formatter<W>,
    id: CallId,
    report: &Report<A>,
    age: Option<Age>,
) -> fmt::Result
    ensures { WritesOnOk W.write_str_gives f.old result (codes "report " ++ (decimal id.0 ++ (codes ": "
        ++ (report_words report.now ++ age_words age)))) f.new }
{
    let number = id.0;
    let words = ReportWords(report);
    write!(f, "report {number}: {words}")?;
    write_age(f, age)
}

// How old what is reported is, where it shows what the server held.
fn write_age<W: fmt::Write>(f: &mut fmt::Formatter<W>, age: Option<Age>) -> fmt::Result
    ensures { WritesOnOk W.write_str_gives f.old result (age_words age) f.new }
{
    match age {
        Some(age) => write!(f, ", {age}"),
        None => Ok(()),
    }
}

// A call or an observation: its number, or the refusal, and what it asks for.
fn write_taken<A: Allocator + Copy, W: fmt::Write>(
    f: &mut fmt::Formatter<W>,
    what: &What<A>,
    answer: Result<CallId, CallRefusal>,
) -> fmt::Result
    ensures { WritesOnOk W.write_str_gives f.old result
        (call_name what.now ++ (answer_words answer ++ asked_words what.now)) f.new }
{
    f.write_str(call_name(what))?;
    write_answer(f, answer)?;
    write_asked(f, what)
}

// What is called.
fn call_name<A: Allocator + Copy>(what: &What<A>) -> &'static str
    ensures { result.now ≡ call_name what.now }
{
    match what {
        What::Observe(_) => "observe",
        _ => "call",
    }
}

// The number of a call or an observation, or that of the refusal.
fn write_answer<W: fmt::Write>(
    f: &mut fmt::Formatter<W>,
    answer: Result<CallId, CallRefusal>,
) -> fmt::Result
    ensures { WritesOnOk W.write_str_gives f.old result (answer_words answer) f.new }
{
    match answer {
        Ok(id) => {
            let number = id.0;
            write!(f, " {number}: ")
        }
        Err(refusal) => {
            let number = refusal.number();
            write!(f, " refused {number}: ")
        }
    }
}

// What is asked for: the method and the path of a request, and the length of its body.
fn write_asked<A: Allocator + Copy, W: fmt::Write>(
    f: &mut fmt::Formatter<W>,
    what: &What<A>,
) -> fmt::Result
    ensures { WritesOnOk W.write_str_gives f.old result (asked_words what.now) f.new }
{
    match what {
        What::Call(request) => {
            write_request(f, request.method, &request.path)?;
            write_len(f, request.body.len())
        }
        What::Observe(path) => {
            let path = PathWords(path);
            write!(f, "{path}")
        }
        _ => Ok(()),
    }
}

// A method and a path.
fn write_request<A: Allocator + Copy, W: fmt::Write>(
    f: &mut fmt::Formatter<W>,
    method: Method,
    path: &Path<A>,
) -> fmt::Result
    ensures { WritesOnOk W.write_str_gives f.old result (request_words method path.now) f.new }
{
    let method = method_name(method);
    let path = PathWords(path);
    write!(f, "{method} {path}")
}

// The name of a method.
fn method_name(method: Method) -> &'static str
    ensures { result.now ≡ method_name method }
{
    match method {
        Method::Get => "GET",
        Method::Post => "POST",
        Method::Put => "PUT",
        Method::Delete => "DELETE",
    }
}

// The cancel of an observation.
fn write_cancelled<A: Allocator + Copy, W: fmt::Write>(
    f: &mut fmt::Formatter<W>,
    what: &What<A>,
    answer: Result<(), CancelRefusal>,
) -> fmt::Result
    ensures { WritesOnOk W.write_str_gives f.old result
        (codes "cancel" ++ (id_words what.now ++ cancel_words answer)) f.new }
{
    f.write_str("cancel")?;
    write_id(f, what)?;
    match answer {
        Ok(()) => Ok(()),
        Err(refusal) => {
            let number = refusal.number();
            write!(f, ": refused {number}")
        }
    }
}

// The end of an observation without a message.
fn write_forgotten<A: Allocator + Copy, W: fmt::Write>(
    f: &mut fmt::Formatter<W>,
    what: &What<A>,
    is_known: bool,
) -> fmt::Result
    ensures { WritesOnOk W.write_str_gives f.old result
        (codes "forget" ++ (id_words what.now ++ known_words is_known)) f.new }
{
    f.write_str("forget")?;
    write_id(f, what)?;
    if is_known {
        Ok(())
    } else {
        f.write_str(": there is no such observation")
    }
}

// The number of the observation that is ended.
fn write_id<A: Allocator + Copy, W: fmt::Write>(
    f: &mut fmt::Formatter<W>,
    what: &What<A>,
) -> fmt::Result
    ensures { WritesOnOk W.write_str_gives f.old result (id_words what.now) f.new }
{
    match what {
        What::Cancel(id) | What::Forget(id) => {
            let number = id.0;
            write!(f, " {number}")
        }
        _ => Ok(()),
    }
}

// A local change: the path, how long the body is, and the version or the refusal.
fn write_set<A: Allocator + Copy, W: fmt::Write>(
    f: &mut fmt::Formatter<W>,
    what: &What<A>,
    answer: Result<u64, StoreRefusal>,
) -> fmt::Result
    ensures { WritesOnOk W.write_str_gives f.old result
        (codes "set" ++ (change_words what.now ++ put_words answer)) f.new }
{
    f.write_str("set")?;
    write_change(f, what)?;
    match answer {
        Ok(version) => write!(f, ": version {version}"),
        Err(refusal) => write_refusal(f, refusal),
    }
}

// The path of a local change, and how long the body is.
fn write_change<A: Allocator + Copy, W: fmt::Write>(
    f: &mut fmt::Formatter<W>,
    what: &What<A>,
) -> fmt::Result
    ensures { WritesOnOk W.write_str_gives f.old result (change_words what.now) f.new }
{
    match what {
        What::Set(path, _, body) => {
            let path = PathWords(path);
            write!(f, " {path}")?;
            write_len(f, body.len())
        }
        _ => Ok(()),
    }
}

// A removal: the path, and whether something was there, or the refusal.
fn write_removed<A: Allocator + Copy, W: fmt::Write>(
    f: &mut fmt::Formatter<W>,
    what: &What<A>,
    answer: Result<bool, StoreRefusal>,
) -> fmt::Result
    ensures { WritesOnOk W.write_str_gives f.old result
        (codes "remove" ++ (removal_words what.now ++ gone_words answer)) f.new }
{
    f.write_str("remove")?;
    write_removal(f, what)?;
    match answer {
        Ok(true) => Ok(()),
        Ok(false) => f.write_str(": nothing is there"),
        Err(refusal) => write_refusal(f, refusal),
    }
}

// The path of a removal.
fn write_removal<A: Allocator + Copy, W: fmt::Write>(
    f: &mut fmt::Formatter<W>,
    what: &What<A>,
) -> fmt::Result
    ensures { WritesOnOk W.write_str_gives f.old result (removal_words what.now) f.new }
{
    match what {
        What::Remove(path) => {
            let path = PathWords(path);
            write!(f, " {path}")
        }
        _ => Ok(()),
    }
}

// The number of a refusal.
fn write_refusal<W: fmt::Write>(f: &mut fmt::Formatter<W>, refusal: StoreRefusal) -> fmt::Result
    ensures { WritesOnOk W.write_str_gives f.old result (refusal_words refusal) f.new }
{
    let number = refusal.number();
    write!(f, ": refused {number}")
}

// A request that is applied: what it asks for, whose it is, and the version that it made.
fn write_applied<A: Allocator + Copy, W: fmt::Write>(
    f: &mut fmt::Formatter<W>,
    request: &AppliedRequest<A>,
) -> fmt::Result
    ensures { WritesOnOk W.write_str_gives f.old result (applied_words request.now) f.new }
{
    f.write_str("applied: ")?;
    write_request(f, request.method, &request.path)?;
    write_whose(f, request.call, request.from)?;
    write_made(f, request.version)
}

// Whose request is applied: that of a call, or of another endpoint.
fn write_whose<W: fmt::Write>(
    f: &mut fmt::Formatter<W>,
    call: Option<CallId>,
    from: Endpoint,
) -> fmt::Result
    ensures { WritesOnOk W.write_str_gives f.old result (whose_words call from) f.new }
{
    match call {
        Some(call) => {
            let number = call.0;
            write!(f, " of call {number}")
        }
        None => {
            let from = EndpointWords(from);
            write!(f, " from {from}")
        }
    }
}

// The version that a request made, where it changed something.
fn write_made<W: fmt::Write>(f: &mut fmt::Formatter<W>, version: u64) -> fmt::Result
    ensures { WritesOnOk W.write_str_gives f.old result (made_words version) f.new }
{
    if version > 0 {
        write!(f, ", version {version}")
    } else {
        Ok(())
    }
}
