//! How much of a journal was replayed.

use crate::inputs::{Handed, ReadsTurns};
use std::alloc::AllocError;
use std::io::Write;

/// How much was replayed.
#[derive(Clone, Copy, Debug, PartialEq, Eq)]
pub(crate) struct Counts {
    /// How many frames.
    pub(crate) frames: u64,
    /// How many of them are turns.
    pub(crate) turns: u64,
    /// How many inputs these have.
    pub(crate) inputs: u64,
    /// How many bytes of a torn frame were dropped.
    pub(crate) torn: u64,
}

/// Nothing was replayed yet, of so many whole frames and bytes that were torn.
pub(crate) fn no_counts(frames: u64, torn: u64) -> Counts {
    Counts {
        frames,
        turns: 0,
        inputs: 0,
        torn,
    }
}

impl ReadsTurns for Counts {
    fn turn(&mut self) {
        self.turns = self.turns.saturating_add(1);
    }

    fn input(&mut self, _input: Handed<'_>) -> Result<(), AllocError> {
        self.inputs = self.inputs.saturating_add(1);
        Ok(())
    }
}

/// Tells how much was replayed of the file of this name.
pub(crate) fn tell_counts<W: Write>(name: &str, counts: Counts, told: &mut W) {
    let Counts {
        frames,
        turns,
        inputs,
        torn,
    } = counts;
    let _ = match (frames, torn) {
        (0, 0) => writeln!(told, "{name}: begun"),
        (0, _) => writeln!(told, "{name}: begun; {torn} torn bytes dropped"),
        (_, 0) => writeln!(
            told,
            "{name}: {frames} frames, {turns} turns, {inputs} inputs replayed"
        ),
        _ => writeln!(
            told,
            "{name}: {frames} frames, {turns} turns, {inputs} inputs replayed; {torn} torn bytes dropped"
        ),
    };
}
