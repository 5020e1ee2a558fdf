//! A journal takes the place of another.
ghost use Rattle.std.specs.Prelude.{ℕ, List, OnOk};

use coap_journal_file::{OpenError, replace_journal};
use std::fs::File;
use std::rt::Files;

/// What has a journal take the place of another.
pub(crate) trait ReplacesJournals {
    /// The name of the journal, and the bytes that it is to have.
    ghost replaces: { Self → List ℕ → List ℕ → Type 0 };

    /// Has the journal of this name be these bytes, which are written beside it under the other name.
    fn replace(&self, name: &str, beside: &str, bytes: &[u8]) -> Result<File, OpenError>
        ensures { OnOk result (replaces self.now name.now bytes.now) };
}

/// Nothing is known of what a system does with files.
impl<R: Files<File = File>> ReplacesJournals for R {
    ghost use Rattle.std.specs.Prelude.{⊤};

    ghost replaces = { λ _ _ _. ⊤ };

    fn replace(&self, name: &str, beside: &str, bytes: &[u8]) -> Result<File, OpenError> {
        replace_journal(self, name, beside, bytes)
    }
}
