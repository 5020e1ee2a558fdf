//! A server whose journal is in a file: it goes on from there, and keeps each input before anything goes out.
//!
//! [`keep`] opens the file, replays it and begins a further life. What it answers is put into a [`Kept`], which is an
//! end: what is handed to it is in the file, and the file is synced, before a datagram that comes of it is given out.
#![tactic(auto)]

mod counts;
mod disk_file;
mod draining;
mod held_paths;
mod inputs;
mod keep_error;
mod keep_words;
mod keeping;
mod kept;
mod kept_time;
mod laws;
mod machine;
mod put_away;
mod renewal;
mod replacing;
mod revival;
mod silence;
mod waking;
mod whole_file;

pub use disk_file::{DiskFile, SLOW_SYNC_MS};
pub use keep_error::KeepError;
pub use keep_words::Keeping;
pub use keeping::{KeptServer, Silences, keep};
pub use kept::Kept;
pub use kept_time::KeptTime;
pub use laws::kept_law;
pub use machine::{Host, Machine, machine_now};
pub use renewal::RENEWAL_SILENCE_MS;
pub use revival::{RevivalError, Revived, revive};
pub use silence::be_silent;
