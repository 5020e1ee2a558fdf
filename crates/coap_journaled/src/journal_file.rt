//! The file of a journal.
ghost use Rattle.std.specs.Prelude.{ℕ, Bool, List, is_ok};

use std::io;

/// A file to which a journal is appended. After a call that failed nothing more is asked of it.
pub trait JournalFile {
    /// The file before, the bytes that are appended, whether they were, and the file after.
    ghost appends: { Self → List ℕ → Bool → Self → Type 0 };

    /// The file before, whether all that was appended is kept whatever happens, and the file after.
    ghost syncs: { Self → Bool → Self → Type 0 };

    /// Appends these bytes. After an `Err` any front of them may stand there.
    fn append(&mut self, bytes: &[u8]) -> io::Result<()>
        // A file is appended just these bytes, as its own words have it, and says whether it was.
        ensures { appends self.old bytes.now (is_ok result) self.new };

    /// Returns once all that was appended is kept, also where the power goes.
    fn sync(&mut self) -> io::Result<()>
        // A file says whether it was synced, as its own words have it.
        ensures { syncs self.old (is_ok result) self.new };
}
