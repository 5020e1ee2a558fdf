//! What is wrong with a line of a script.
use crate::lines::Line;
use std::alloc::Global;
use std::fmt;
use std::fmt::Debug;
use std::test::Fail;

/// Why a line is not as it has to be. It is no error that `?` makes a failure of a test, so nobody can leave out where
/// the line stands.
#[derive(Drop)]
pub enum Wrong {
    /// This came of it instead.
    Came(String),
    /// This is amiss.
    Because(&'static str),
}

impl Wrong {
    /// This came of it instead.
    pub fn came(alloc: Global, came: &str) -> Wrong {
        match String::from_str(alloc, came) {
            Ok(came) => Wrong::Came(came),
            Err(_) => Wrong::Because("memory is wanting"),
        }
    }

    /// The test's failure, with the place of the line.
    pub fn at(self, line: &Line<'_>) -> Fail {
        Fail::new(Shown { line, wrong: &self })
    }
}

/// What is wrong with a line, in words.
#[derive(Clone, Copy)]
pub struct Shown<'a> {
    /// The line.
    pub line: &'a Line<'a>,
    /// Why it is not as it has to be.
    pub wrong: &'a Wrong,
}

impl fmt::Display for Shown<'_> {
    fn fmt<W: fmt::Write>(&self, f: &mut fmt::Formatter<W>) -> fmt::Result {
        let place = self.line.place;
        let text = self.line.text;
        match self.wrong {
            Wrong::Came(came) => write!(f, "{place}: `{text}`, but it came to `{came}`"),
            Wrong::Because(why) => write!(f, "{place}: `{text}`, but {why}"),
        }
    }
}

impl<E: Debug + Drop> From<E> for Wrong {
    fn from(_error: E) -> Wrong {
        Wrong::Because("a word can't be read, or memory is wanting")
    }
}
