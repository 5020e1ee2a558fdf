//! What a chart is drawn on: how wide it is, and its rows.
ghost use Rattle.std.specs.Prelude.{◌≡◌};
ghost use Rattle.coap_scripts.specs.Charts.{crossing, stroke_before, stroke_behind};
ghost use Rattle.coap_scripts.specs.Charts.{row_colour};

use coap_print::{Colour, Ink};
use coap_run::Side;
use coap_types::Moment;
use std::alloc::{AllocError, Allocator};
use std::fmt;

// A chart has no more columns.
const MAX_WIDTH: usize = 100;

// The columns of a moment, where none of the run has more digits.
const USUAL_MOMENT_WIDTH: usize = 6;

// The columns of what crosses the line of an end.
const MARGIN_WIDTH: usize = 3;

// The columns of both lines.
const LINES_WIDTH: usize = 2;

// The columns beside the moment and what stands between the lines: a blank, both margins and both lines.
const BESIDE_WIDTH: usize = 1 + 2 * MARGIN_WIDTH + LINES_WIDTH;

// The columns by which the arrow of a datagram that is given out ends before the other line, which it doesn't reach in
// this row.
const GAP_WIDTH: usize = 4;

// What stands at the end of a text that is cut.
const CUT: &str = "..";

/// What is drawn in a row.
#[derive(Clone, Copy)]
pub(super) enum Form {
    /// What happens at the end.
    Note,
    /// A datagram that the end gives out, for the other one.
    Sent,
    /// One that never arrives.
    Lost,
    /// A datagram that arrives at the end, from the other one.
    Arrives,
    /// A datagram that comes to the end from elsewhere.
    FromElsewhere,
    /// A datagram that the end gives out, for elsewhere.
    ToElsewhere,
}

/// What a chart is drawn on.
#[derive(Clone, Copy)]
pub(super) struct Sheet<A> {
    alloc: A,
    ink: Ink,
    moment_width: usize,
    // Between the lines.
    inner_width: usize,
}

impl<A: Allocator + Copy> Sheet<A> {
    /// In this ink, with room for this moment, the last of the run.
    pub(super) fn new(alloc: A, ink: Ink, last: Moment) -> Result<Sheet<A>, AllocError> {
        let last = last.0;
        let digits = format!(in alloc; "{last}")?;
        let moment_width = digits.len().max(USUAL_MOMENT_WIDTH);
        let beside = moment_width.saturating_add(BESIDE_WIDTH);
        Ok(Sheet {
            alloc,
            ink,
            moment_width,
            inner_width: MAX_WIDTH.saturating_sub(beside),
        })
    }

    /// The first row: the unit of the moments, and over each line whose it is.
    pub(super) fn head(&self) -> Result<String<A>, AllocError> {
        let (left, right) = ("client", "server");
        let (unit, moment) = ("ms", self.moment_width);
        let (blank, margin) = ("", MARGIN_WIDTH);
        // The first of these words begins over the client's line, and the second ends over the server's.
        let width = self
            .inner_width
            .saturating_add(LINES_WIDTH)
            .saturating_sub(left.len());
        format!(in self.alloc; "{unit:>moment$} {blank:>margin$}{left}{right:>width$}\n")
    }

    /// The row of what happens at a moment beside the line of an end, in these words; they are cut where they are too
    /// long.
    pub(super) fn row<D: fmt::Display>(
        &self,
        at: Moment,
        side: Side,
        form: Form,
        words: &D,
    ) -> Result<String<A>, AllocError> {
        let text = self.text(side, form, words)?;
        let text = text.as_str();
        let (at, moment) = (at.0, self.moment_width);
        let (inner, margin) = (self.inner_width, MARGIN_WIDTH);
        let (crossing, blank) = (crossing(side, form), "");
        let colour = row_colour(self.ink, form);
        let (begin, end) = (colour.sign_before(), colour.sign_behind());
        match side {
            Side::Client => {
                format!(in self.alloc;
                    "{begin}{at:>moment$} {crossing:>margin$}|{text:<inner$}|{end}\n"
                )
            }
            Side::Server => {
                format!(in self.alloc;
                    "{begin}{at:>moment$} {blank:>margin$}|{text:>inner$}|{crossing}{end}\n"
                )
            }
        }
    }

    // What stands between the lines.
    fn text<D: fmt::Display>(
        &self,
        side: Side,
        form: Form,
        words: &D,
    ) -> Result<String<A>, AllocError> {
        let (before, after) = strokes(side, form);
        let gap = match form {
            Form::Sent | Form::Lost => GAP_WIDTH,
            _ => 0,
        };
        let taken = before.len().saturating_add(after.len()).saturating_add(gap);
        let room = self.inner_width.saturating_sub(taken);
        let words = format!(in self.alloc; "{words}")?;
        let words = words.as_str();
        if words.len() <= room {
            return format!(in self.alloc; "{before}{words}{after}");
        }
        let kept = room.saturating_sub(CUT.len());
        format!(in self.alloc; "{before}{words:.kept$}{CUT}{after}")
    }
}

// What is drawn before the words and behind them: an arrow is on the way to the other end where it is sent, and to this
// one where it arrives.
fn strokes(side: Side, form: Form) -> (&'static str, &'static str)
    ensures before { result.0.now ≡ stroke_before side form }
    ensures behind { result.1.now ≡ stroke_behind side form }
{
    match (side, form) {
        (_, Form::Note | Form::FromElsewhere | Form::ToElsewhere) => (" ", " "),
        (Side::Client, Form::Sent) | (Side::Server, Form::Arrives) => ("--- ", " --->"),
        (Side::Server, Form::Sent) | (Side::Client, Form::Arrives) => ("<--- ", " ---"),
        (Side::Client, Form::Lost) => ("--- ", " ---x"),
        (Side::Server, Form::Lost) => ("x--- ", " ---"),
    }
}

// What crosses the line of an end.
fn crossing(side: Side, form: Form) -> &'static str
    ensures { result.now ≡ crossing side form }
{
    match (side, form) {
        (Side::Client, Form::FromElsewhere) | (Side::Server, Form::ToElsewhere) => "-->",
        (Side::Server, Form::FromElsewhere) | (Side::Client, Form::ToElsewhere) => "<--",
        _ => "",
    }
}

// The colour of a row.
fn row_colour(ink: Ink, form: Form) -> Colour
    ensures { result ≡ row_colour ink form }
{
    match (ink, form) {
        (Ink::Plain, _) | (Ink::Coloured, Form::Note) => Colour::Usual,
        (Ink::Coloured, Form::Sent | Form::Lost | Form::ToElsewhere) => Colour::Cyan,
        (Ink::Coloured, Form::Arrives | Form::FromElsewhere) => Colour::Green,
    }
}
