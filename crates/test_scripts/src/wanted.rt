//! What has to be told.
use crate::lines::Line;
use crate::places::Place;
use crate::scripts::Script;
use crate::spelling::push_spelt;
use crate::wrong::Wrong;
use std::alloc::{AllocError, Global};
use std::test::Fail;
use std::{fmt, str};

// Parts bytes that belong together.
const JOINT: char = '_';
// Where there is no further line.
const NOTHING: &str = "nothing";

/// The lines that have to be told, and where a script says so.
#[derive(Drop)]
pub struct Wanted<'a> {
    text: String,
    places: Vec<Place<'a>>,
    // Where the script says more, if it did.
    end: Place<'a>,
}

impl<'a> Wanted<'a> {
    /// No line yet, of this script.
    pub fn new(alloc: Global, script: &Script<'a>) -> Self {
        Wanted {
            text: String::new(alloc),
            places: Vec::new(alloc),
            end: script.place,
        }
    }

    /// Adds a line that is told where that line stands.
    pub fn push(&mut self, at: &Line<'a>, told: &str) -> Result<(), AllocError> {
        self.text.push_str(told)?;
        self.text.push('\n')?;
        self.places.push(at.place)?;
        self.end = at.place;
        Ok(())
    }

    /// Adds what a line tells, with its repetitions written out and its bytes joined.
    pub fn push_told(&mut self, alloc: Global, line: &Line<'a>) -> Result<(), Wrong> {
        let joined: String = line.text.chars().filter(|it| *it != JOINT).collect(alloc)?;
        let mut told = String::new(alloc);
        push_spelt(&mut told, joined.as_str())?;
        self.push(line, told.as_str())?;
        Ok(())
    }

    /// All of it.
    pub fn as_str(&self) -> &str {
        self.text.as_str()
    }

    /// This is told in such a run, byte for byte; else the first line that differs is shown.
    pub fn check<'t>(&'t self, run: &'t str, told: &'t [u8]) -> Result<(), Fail> {
        if told == self.text.as_bytes() {
            return Ok(());
        }
        let told = str::from_utf8(told).unwrap_or("no text");
        Err(Fail::new(self.difference(run, told)))
    }

    /// The first line that differs.
    pub fn difference<'t>(&'t self, run: &'t str, told: &'t str) -> Difference<'t> {
        let number = same_lines(told, self.text.as_str());
        Difference {
            place: self.places.get(number).copied().unwrap_or(self.end),
            wanted: self.text.lines().nth(number).unwrap_or(NOTHING),
            run,
            told: told.lines().nth(number).unwrap_or(NOTHING),
        }
    }
}

/// A line that is told otherwise than it has to be.
#[derive(Clone, Copy)]
pub struct Difference<'t> {
    place: Place<'t>,
    wanted: &'t str,
    run: &'t str,
    told: &'t str,
}

impl fmt::Display for Difference<'_> {
    fn fmt<W: fmt::Write>(&self, f: &mut fmt::Formatter<W>) -> fmt::Result {
        let place = self.place;
        let wanted = self.wanted;
        let run = self.run;
        let told = self.told;
        write!(
            f,
            "{place}: `{wanted}` has to be told, but {run} `{told}` is"
        )
    }
}

// How many lines are the same before the first that differs.
fn same_lines(told: &str, wanted: &str) -> usize {
    let mut number = 0usize;
    for (told, wanted) in told.lines().zip(wanted.lines()) {
        if told != wanted {
            return number;
        }
        number = number.saturating_add(1);
    }
    number
}
