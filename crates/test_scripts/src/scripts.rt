//! The scripts of a file.
use crate::lines::{Line, Mark, line_of};
use crate::places::Place;
use std::alloc::{AllocError, Global};
use std::test::Fail;

// What stands before the name of a script, on a line of its own.
const HEAD: &str = "\n== ";

/// The scripts of a file of tests.
#[derive(Clone, Copy)]
pub struct Scripts<'a> {
    /// The module of the file, by `module_path!()`.
    pub module: &'a str,
    /// The number of the line on which the text begins, which `tools/script-lines` writes.
    pub line: usize,
    /// The scripts, one after the other.
    pub text: &'a str,
}

/// A script: its name, and lines.
#[derive(Clone, Copy)]
pub struct Script<'a> {
    /// Where its name stands.
    pub place: Place<'a>,
    // Its name, and after a line end its lines.
    text: &'a str,
}

impl<'a> Script<'a> {
    /// What stands after its `== `.
    pub fn name(&self) -> &'a str {
        self.text.lines().next().unwrap_or("")
    }

    /// The line of its name, as a step.
    pub fn head(&self) -> Line<'a> {
        Line {
            place: self.place,
            mark: Mark::Step,
            text: self.name(),
        }
    }

    /// Each line that says something, in their order.
    pub fn lines(&self, alloc: Global) -> Result<Vec<Line<'a>>, AllocError> {
        let mut lines = Vec::new(alloc);
        for (number, whole) in self.text.lines().enumerate().skip(1) {
            if let Some(line) = line_of(self.place.down(number), whole) {
                lines.push(line)?;
            }
        }
        Ok(lines)
    }
}

/// The scripts of a file, in their order.
pub fn scripts_of<'a>(alloc: Global, file: &Scripts<'a>) -> Result<Vec<Script<'a>>, AllocError> {
    let mut scripts = Vec::new(alloc);
    let mut place = Place::new(file.module, file.line);
    for (number, text) in file.text.split(HEAD).enumerate() {
        // What comes before the first one is no script.
        if number > 0 {
            scripts.push(Script { place, text })?;
        }
        place = place.down(text.split('\n').count());
    }
    Ok(scripts)
}

/// The script of this name.
pub fn find<'a>(alloc: Global, file: &Scripts<'a>, name: &str) -> Result<Script<'a>, Fail> {
    for script in scripts_of(alloc, file)?.iter() {
        if script.name() == name {
            return Ok(*script);
        }
    }
    Err(Fail::new(format_args!("there is no script {name}")))
}
