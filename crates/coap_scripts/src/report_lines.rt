//! A report on a line.
ghost use Rattle.std.specs.Prelude.{◌≡◌, ◌++◌, IfOk, codes, decimal, string_bytes};
ghost use Rattle.std.specs.Option.{option_map};
ghost use Rattle.coap_scripts.specs.Reports.{fetched_text, format_text, report_text, tag_text};

use coap_ends::{Fetched, Report};
use coap_print::hex_or_dash;
use coap_types::Tag;
use std::alloc::{AllocError, Allocator};

// An entity-tag in hex, or `-` where there is none.
fn tag_text<A: Allocator + Copy>(alloc: A, tag: Option<&Tag>) -> Result<String<A>, AllocError>
    ensures { IfOk result (λ text. string_bytes text ≡ tag_text (option_map (λ t. t.now) tag.entry)) }
{
    match tag {
        Some(tag) => hex_or_dash(alloc, tag.as_slice()),
        None => hex_or_dash(alloc, &[]),
    }
}

// A Content-Format, or `-` where there is none.
fn format_text<A: Allocator + Copy>(alloc: A, format: Option<u16>) -> Result<String<A>, AllocError>
    ensures { IfOk result (λ text. string_bytes text ≡ format_text format) }
{
    match format {
        Some(number) => format!(in alloc; "{number}"),
        None => String::from_str(alloc, "-"),
    }
}

// The entity-tag, the format and the body of a representation.
fn fetched_text<A: Allocator + Copy>(
    alloc: A,
    fetched: &Fetched<A>,
) -> Result<String<A>, AllocError>
    ensures { IfOk result (λ text. string_bytes text ≡ fetched_text fetched.now) }
{
    let tag = tag_text(alloc, fetched.tag.as_ref())?;
    let format = format_text(alloc, fetched.format)?;
    let body = hex_or_dash(alloc, fetched.body.as_slice())?;
    joined(alloc, tag.as_str(), format.as_str(), body.as_str())
}

// Three words, parted by a space.
fn joined<A: Allocator + Copy>(
    alloc: A,
    first: &str,
    second: &str,
    third: &str,
) -> Result<String<A>, AllocError>
    ensures { IfOk result (λ text. string_bytes text
        ≡ first.now ++ (codes " " ++ (second.now ++ (codes " " ++ third.now)))) }
{
    format!(in alloc; "{first} {second} {third}")
}

// A value in words: its number, and the representation.
fn value_text<A: Allocator + Copy>(
    alloc: A,
    number: u32,
    fetched: &str,
) -> Result<String<A>, AllocError>
    ensures { IfOk result (λ text. string_bytes text
        ≡ codes "value " ++ (decimal number ++ (codes " " ++ fetched.now))) }
{
    format!(in alloc; "value {number} {fetched}")
}

/// A report: its name, and what it tells.
pub fn report_text<A: Allocator + Copy>(
    alloc: A,
    report: &Report<A>,
) -> Result<String<A>, AllocError>
    // The text is the name of the report and what it tells, parted by a space.
    ensures { IfOk result (λ text. string_bytes text ≡ report_text report.now) }
{
    match report {
        Report::Body(fetched) => {
            let fetched = fetched_text(alloc, fetched)?;
            format!(in alloc; "body {fetched}")
        }
        Report::Valid(tag) => {
            let tag = tag_text(alloc, tag.as_ref())?;
            format!(in alloc; "valid {tag}")
        }
        Report::Value(number, fetched) => {
            let fetched = fetched_text(alloc, fetched)?;
            value_text(alloc, *number, fetched.as_str())
        }
        Report::Done(code) => format!(in alloc; "done {code}"),
        Report::Ended(code) => format!(in alloc; "ended {code}"),
        Report::Failed(code) => format!(in alloc; "failed {code}"),
        Report::Cancelled => String::from_str(alloc, "cancelled"),
        Report::Timeout => String::from_str(alloc, "timeout"),
        Report::Reset => String::from_str(alloc, "reset"),
        Report::NoResponse => String::from_str(alloc, "no-response"),
        Report::Changed => String::from_str(alloc, "changed"),
        Report::BadBlock => String::from_str(alloc, "bad-block"),
        Report::NoTag => String::from_str(alloc, "no-tag"),
        Report::TooLarge => String::from_str(alloc, "too-large"),
        Report::NoIds => String::from_str(alloc, "no-ids"),
    }
}
