//! The line of a report.
ghost use Rattle.std.specs.Prelude.{◌≡◌, ◌∷◌, [], codes, IfOk};
ghost use Rattle.coap_client.specs.Object.Shown.{shown_report};
ghost use Rattle.coap_client.specs.Responses.{content};
ghost use Rattle.coap_json.specs.Objects.{IsLineOf, whole};
ghost use Rattle.coap_json.specs.ReportObjects.{code_field, fetched_fields, report_fields, report_name, report_object};
ghost use Rattle.coap_json.specs.Written.{AddsFields};

use crate::line::{add_bytes, add_format, add_tag, add_text, add_whole, begin, end};
use coap_client::{Fetched, Report};
use coap_types::{Code, Moment};
use json::Writer;
use std::alloc::{AllocError, Allocator};

// What a report is called.
fn name_of<A: Allocator + Copy>(report: &Report<A>) -> &'static str
    ensures { result.now ≡ report_name (shown_report report.now) }
{
    match report {
        Report::Body(_) => "body",
        Report::Valid(_) => "valid",
        Report::Done(_) => "done",
        Report::Value(_, _) => "value",
        Report::Ended(_) => "ended",
        Report::Cancelled => "cancelled",
        Report::Failed(_) => "failed",
        Report::Timeout => "timeout",
        Report::Reset => "reset",
        Report::NoResponse => "no-response",
        Report::Changed => "changed",
        Report::BadBlock => "bad-block",
        Report::NoTag => "no-tag",
        Report::TooLarge => "too-large",
        Report::NoIds => "no-ids",
    }
}

// Adds a code.
fn add_code<A: Allocator + Copy>(
    alloc: A,
    writer: &mut Writer<A>,
    code: Code,
) -> Result<(), AllocError>
    ensures { AddsFields result writer.old writer.new (code_field code.0 ∷ []) }
{
    let text = format!(in alloc; "{code}")?;
    add_text(writer, "code", text.as_str())
}

// Adds what there is of a representation.
fn add_fetched<A: Allocator + Copy>(
    alloc: A,
    writer: &mut Writer<A>,
    fetched: &Fetched<A>,
) -> Result<(), AllocError>
    ensures { AddsFields result writer.old writer.new
        (fetched_fields fetched.now.tag fetched.now.format fetched.now.body) }
{
    add_tag(alloc, writer, fetched.tag.as_ref())?;
    add_format(writer, fetched.format)?;
    add_bytes(alloc, writer, fetched.body.as_slice())
}

// Adds the code and the sequence number of a notification.
fn add_sequence<A: Allocator + Copy>(
    alloc: A,
    writer: &mut Writer<A>,
    sequence: u32,
) -> Result<(), AllocError>
    ensures { AddsFields result writer.old writer.new
        (code_field content ∷ (codes "sequence", whole sequence) ∷ []) }
{
    add_code(alloc, writer, Code::CONTENT)?;
    add_whole(writer, "sequence", u64::from(sequence))
}

// Adds what a report tells besides its name.
fn add_report<A: Allocator + Copy>(
    alloc: A,
    writer: &mut Writer<A>,
    report: &Report<A>,
) -> Result<(), AllocError>
    ensures { AddsFields result writer.old writer.new (report_fields (shown_report report.now)) }
{
    match report {
        Report::Body(fetched) => {
            add_code(alloc, writer, Code::CONTENT)?;
            add_fetched(alloc, writer, fetched)
        }
        Report::Valid(tag) => {
            add_code(alloc, writer, Code::VALID)?;
            add_tag(alloc, writer, tag.as_ref())
        }
        Report::Value(sequence, fetched) => {
            add_sequence(alloc, writer, *sequence)?;
            add_fetched(alloc, writer, fetched)
        }
        Report::Done(code) | Report::Ended(code) | Report::Failed(code) => {
            add_code(alloc, writer, *code)
        }
        Report::Cancelled
        | Report::Timeout
        | Report::Reset
        | Report::NoResponse
        | Report::Changed
        | Report::BadBlock
        | Report::NoTag
        | Report::TooLarge
        | Report::NoIds => Ok(()),
    }
}

/// The line of a report, which a client made at this moment: an object with its name, and what it tells.
pub fn report_line<A: Allocator + Copy>(
    alloc: A,
    at: Moment,
    report: &Report<A>,
) -> Result<Vec<u8, A>, AllocError>
    // The line of a report is the text of the object that the table has for it, to its last byte, and is read as that.
    ensures { IfOk result (λ line. IsLineOf line.items (report_object at.0 (shown_report report.now))) }
{
    let mut writer = begin(alloc, at, name_of(report))?;
    add_report(alloc, &mut writer, report)?;
    end(writer)
}
