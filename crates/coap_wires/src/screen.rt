//! Standard error as a screen: with a line on it that is written over.

use std::cell::RefCell;
use std::io::Write;
use std::{fmt, io};

// Goes to the begin of the line, and erases it to its end (ECMA-48, sections 8.3.15 and 8.3.41).
const ERASE_LINE: &str = "\r\x1b[K";

/// A writer on whose last line something may be shown for a while. Before anything else is written, that is erased.
#[derive(Drop)]
pub struct Screen<W> {
    out: W,
    is_shown: bool,
}

impl<W: Write> Screen<W> {
    /// A screen on which nothing is shown.
    pub fn new(out: W) -> Screen<W> {
        Screen {
            out,
            is_shown: false,
        }
    }

    /// Shows this on the last line, in place of what was shown there.
    pub fn show<D: fmt::Display>(&mut self, what: &D) -> io::Result<()> {
        self.erase()?;
        self.is_shown = true;
        write!(self.out, "{what}")?;
        self.out.flush()
    }

    /// The writer, as it is.
    pub fn into_inner(self) -> W {
        self.out
    }

    /// Erases what is shown.
    pub fn erase(&mut self) -> io::Result<()> {
        if self.is_shown {
            self.is_shown = false;
            self.out.write_all(ERASE_LINE.as_bytes())?;
        }
        Ok(())
    }
}

impl<W: Write> Write for Screen<W> {
    fn write(&mut self, bytes: &[u8]) -> io::Result<usize> {
        self.erase()?;
        self.out.write(bytes)
    }

    // What is shown is for a while alone, so none of it is left.
    fn flush(&mut self) -> io::Result<()> {
        self.erase()?;
        self.out.flush()
    }
}

/// Erases what is shown on a screen that others have too.
pub fn erase<W: Write>(screen: &RefCell<Screen<W>>) {
    if let Ok(mut screen) = screen.try_borrow_mut() {
        let _ = screen.erase();
    }
}

/// Has standard error erase what it shows for a while, before something is written on standard output.
pub fn make_way<E: Write>(err: &mut E) {
    let _ = err.flush();
}
