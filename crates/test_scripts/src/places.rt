//! Where a line stands.
use std::fmt;

/// A line of a source file.
#[derive(Clone, Copy)]
pub struct Place<'a> {
    module: &'a str,
    line: usize,
    // The line of the row whose columns it has.
    row: Option<usize>,
}

impl<'a> Place<'a> {
    /// The line of this number, from 1 on, in the file of this module.
    pub fn new(module: &'a str, line: usize) -> Self {
        Place {
            module,
            line,
            row: None,
        }
    }

    /// So many lines further down.
    pub fn down(self, lines: usize) -> Self {
        Place {
            module: self.module,
            line: self.line.saturating_add(lines),
            row: self.row,
        }
    }

    /// The same line, with the columns of the row that stands there.
    pub fn with_row(self, row: Place<'_>) -> Self {
        Place {
            module: self.module,
            line: self.line,
            row: Some(row.line),
        }
    }
}

impl fmt::Display for Place<'_> {
    fn fmt<W: fmt::Write>(&self, f: &mut fmt::Formatter<W>) -> fmt::Result {
        write_file(f, self.module)?;
        write!(f, ":{}", self.line)?;
        match self.row {
            Some(row) => write!(f, " with the row on line {row}"),
            None => Ok(()),
        }
    }
}

// The file of a module, of which the name of the tests' folder is the first part.
fn write_file<W: fmt::Write>(f: &mut fmt::Formatter<W>, module: &str) -> fmt::Result {
    let (name, parts) = module.split_once("::").unwrap_or((module, "lib"));
    write!(f, "tests/{name}/src")?;
    for part in parts.split("::") {
        write!(f, "/{part}")?;
    }
    write!(f, ".rt.in")
}
