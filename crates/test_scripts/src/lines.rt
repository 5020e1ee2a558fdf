//! The lines of a script that say something.
use crate::places::Place;
use crate::wrong::Wrong;
use std::test::Fail;

/// What kind of line it is.
#[derive(Clone, Copy, Debug, PartialEq, Eq)]
pub enum Mark {
    /// Something happens.
    Step,
    /// `> `: something is told, or goes one way.
    Told,
    /// `< `: something comes back.
    Back,
    /// `! `: why nothing is told.
    Refusal,
    /// `| `: the columns of a row.
    Row,
}

const MARKS: [(&str, Mark); 4] = [
    ("> ", Mark::Told),
    ("< ", Mark::Back),
    ("! ", Mark::Refusal),
    ("| ", Mark::Row),
];

/// A line that says something.
#[derive(Clone, Copy)]
pub struct Line<'a> {
    /// Where it stands.
    pub place: Place<'a>,
    /// What kind of line it is.
    pub mark: Mark,
    /// What it says after its mark.
    pub text: &'a str,
}

impl<'a> Line<'a> {
    /// The same line, with the columns of that row.
    pub fn with_row(&self, row: &Line<'_>) -> Self {
        Line {
            place: self.place.with_row(row.place),
            mark: self.mark,
            text: self.text,
        }
    }

    /// What came of the line, or the test's failure with its place.
    pub fn check<T>(&self, came: Result<T, Wrong>) -> Result<T, Fail> {
        match came {
            Ok(it) => Ok(it),
            Err(wrong) => Err(wrong.at(self)),
        }
    }
}

/// The line that stands there, unless it is empty or a remark.
pub(crate) fn line_of<'a>(place: Place<'a>, whole: &'a str) -> Option<Line<'a>> {
    if whole.is_empty() || whole.starts_with('#') {
        return None;
    }
    let (mark, text) = marked(whole);
    Some(Line { place, mark, text })
}

fn marked(whole: &str) -> (Mark, &str) {
    for (sign, mark) in MARKS {
        if let Some(text) = whole.strip_prefix(sign) {
            return (mark, text);
        }
    }
    (Mark::Step, whole)
}
