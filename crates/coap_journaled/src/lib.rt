//! An end that keeps a journal: nothing goes out before what it comes of is in a file that was synced.
#![tactic(auto)]

mod journal_file;
mod journaled;
mod laws;
mod server_calls;

pub use journal_file::JournalFile;
pub use journaled::{CommitError, Journaled};
pub use laws::{journaled_law, journaled_server_law};
