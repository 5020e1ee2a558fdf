//! What a GET makes of the answer to a request of its (RFC 7959, section 2.4).
ghost use Rattle.std.specs.Prelude.{◌≡◌, IfOk, OnErr};
ghost use Rattle.coap_client.specs.Calls.{got, fetched};
ghost use Rattle.coap_client.specs.Reports.{refused};
ghost use Rattle.coap_client.specs.Responses.{format_in, part, tag_in};
ghost use Rattle.coap_client.specs.Object.CallShown.{shown_request};
ghost use Rattle.coap_client.specs.Object.Shown.{shown_report};
ghost use Rattle.coap_client.specs.Object.AnswerSteps.{HearsFetch};

use crate::client::heard::Heard;
use crate::client::report::{Fetched, Report};
use crate::client::responses::{format_in, tag_in, take_part};
use bytes::Bytes;
use coap_block::{Fetch, FetchRefusal, Step};
use coap_codec::View;
use coap_types::{Code, Request};
use std::alloc::{AllocError, Allocator};

/// What a GET makes of an answer. After an `Err` the fetch is as before.
pub fn hear_get<A: Allocator + Copy>(
    fetch: &mut Fetch<A>,
    request: &Request<A>,
    m: &View<'_>,
) -> Result<Heard<A>, AllocError>
    ensures hears { IfOk result (λ heard. HearsFetch fetch.old.state
        (got (shown_request request.now) fetch.old.state m.now) heard fetch.new) }
    ensures err { OnErr result (fetch.new.state ≡ fetch.old.state) }
{
    match m.code() {
        Code::CONTENT => hear_content(fetch, m),
        Code::VALID if !request.etags.as_slice().is_empty() => {
            Ok(Heard::Over {
                is_final: true,
                report: Report::Valid(tag_in(m)),
            })
        }
        code => Ok(Heard::Over {
            is_final: true,
            report: Report::Failed(code),
        }),
    }
}

// What a GET makes of a 2.05.
fn hear_content<A: Allocator + Copy>(
    fetch: &mut Fetch<A>,
    m: &View<'_>,
) -> Result<Heard<A>, AllocError>
    ensures hears { IfOk result (λ heard. HearsFetch fetch.old.state
        (fetched fetch.old.state m.now (part fetch.old.state m.now)) heard fetch.new) }
    ensures err { OnErr result (fetch.new.state ≡ fetch.old.state) }
{
    match take_part(fetch, m)? {
        Step::Next(_) => Ok(Heard::Asks),
        Step::Restart => Ok(Heard::Asks),
        Step::Whole(body) => Ok(Heard::Over {
            is_final: true,
            report: Report::Body(representation(m, body)),
        }),
        Step::Refused(why) => Ok(Heard::Over {
            is_final: true,
            report: refusal_report(why),
        }),
    }
}

/// A representation, of which this is the last part.
pub fn representation<A: Allocator + Copy>(m: &View<'_>, body: Bytes<A>) -> Fetched<A>
    ensures tag { result.tag ≡ tag_in m.now }
    ensures format { result.format ≡ format_in m.now }
    ensures body { result.body ≡ body }
{
    Fetched {
        tag: tag_in(m),
        format: format_in(m),
        body,
    }
}

/// Why the parts are no body.
pub fn refusal_report<A: Allocator + Copy>(why: FetchRefusal) -> Report<A>
    ensures { shown_report result ≡ refused why }
{
    match why {
        FetchRefusal::Changed => Report::Changed,
        FetchRefusal::BadBlock => Report::BadBlock,
        FetchRefusal::NoTag => Report::NoTag,
        FetchRefusal::TooLarge => Report::TooLarge,
    }
}
