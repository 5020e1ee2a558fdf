//! A report in words.
ghost use Rattle.std.specs.Prelude.{Some};
ghost use Rattle.std.specs.Fmt.{WritesOnOk};
ghost use Rattle.std.specs.Option.{option_map};
ghost use Rattle.coap_scripts.specs.ReportWords.{code_words, fetched_words, format_words, report_words, tag_words};

use coap_ends::{Fetched, Report};
use coap_print::{write_hex, write_name};
use coap_types::{Code, Tag};
use std::alloc::Allocator;
use std::fmt;

/// A report in words: its name and what it tells, with the length of a body in place of its bytes.
#[derive(Clone, Copy)]
pub(crate) struct ReportWords<'a, A: Allocator + Copy>(pub(crate) &'a Report<A>);

impl<'a, A: Allocator + Copy> fmt::Display for ReportWords<'a, A> {
    ghost output = { λ words. Some (report_words words.0.now) };

    fn fmt<W: fmt::Write>(&self, f: &mut fmt::Formatter<W>) -> fmt::Result {
        match self.0 {
            Report::Body(fetched) => {
                f.write_str("body")?;
                write_fetched(f, fetched)
            }
            Report::Valid(tag) => {
                f.write_str("valid")?;
                write_tag(f, tag.as_ref())
            }
            Report::Value(number, fetched) => {
                write!(f, "value {number}")?;
                write_fetched(f, fetched)
            }
            Report::Done(code) => write_code(f, "done", *code),
            Report::Ended(code) => write_code(f, "ended", *code),
            Report::Failed(code) => write_code(f, "failed", *code),
            Report::Cancelled => f.write_str("cancelled"),
            Report::Timeout => f.write_str("timeout"),
            Report::Reset => f.write_str("reset"),
            Report::NoResponse => f.write_str("no response"),
            Report::Changed => f.write_str("changed"),
            Report::BadBlock => f.write_str("bad block"),
            Report::NoTag => f.write_str("no entity-tag"),
            Report::TooLarge => f.write_str("too large"),
            Report::NoIds => f.write_str("no Message ID or token is free"),
        }
    }
}

// The entity-tag and the format of a representation, where it has them, and how long it is.
fn write_fetched<A: Allocator + Copy, W: fmt::Write>(
    f: &mut fmt::Formatter<W>,
    fetched: &Fetched<A>,
) -> fmt::Result
    ensures { WritesOnOk W.write_str_gives f.old result (fetched_words fetched.now) f.new }
{
    let len = fetched.body.len();
    write_tag(f, fetched.tag.as_ref())?;
    write_format(f, fetched.format)?;
    write!(f, ", {len} B")
}

// An entity-tag, where there is one.
fn write_tag<W: fmt::Write>(f: &mut fmt::Formatter<W>, tag: Option<&Tag>) -> fmt::Result
    ensures { WritesOnOk W.write_str_gives f.old result (tag_words (option_map (λ t. t.now) tag.entry)) f.new }
{
    match tag {
        Some(tag) => {
            f.write_str(", ETag ")?;
            write_hex(f, tag.as_slice())
        }
        None => Ok(()),
    }
}

// A Content-Format, where there is one.
fn write_format<W: fmt::Write>(f: &mut fmt::Formatter<W>, format: Option<u16>) -> fmt::Result
    ensures { WritesOnOk W.write_str_gives f.old result (format_words format) f.new }
{
    match format {
        Some(format) => write!(f, ", Content-Format {format}"),
        None => Ok(()),
    }
}

// What came, with a code: its number, and its name where it has one.
fn write_code<W: fmt::Write>(f: &mut fmt::Formatter<W>, what: &str, code: Code) -> fmt::Result
    ensures { WritesOnOk W.write_str_gives f.old result (code_words what.now code) f.new }
{
    write!(f, "{what} {code}")?;
    write_name(f, code)
}
