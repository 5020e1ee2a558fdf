//! The file of a journal: how it is opened, what stands in it, how it is begun, and with which boot of the machine a
//! server goes on.
//!
//! A file is [`open_journal`]ed and [`judge`]d. One that is empty gets a [`begun_frame`] and a [`setup_frame`]; with
//! another one the words have to agree ([`what_differs`]). A server that goes on after another boot is told so by
//! [`boot_in`] and [`uptime_in`], and then a [`woke_frame`] is written.
#![tactic(auto)]

mod boots;
mod frames;
mod judging;
mod opening;
mod stored_file;
mod wishes;

pub use boots::{boot_in, uptime_in};
pub use frames::{FrameError, begun_frame, setup_frame, woke_frame};
pub use judging::{Began, FileError, Judged, judge};
pub use opening::{OpenError, OpenJournal, open_journal, replace_journal};
pub use stored_file::StoredFile;
pub use wishes::{Differing, Wishes, differing_beginning, what_differs};
