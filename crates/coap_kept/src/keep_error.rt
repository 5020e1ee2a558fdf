//! Why a server doesn't go on.

use crate::revival::RevivalError;
use coap_journal_file::{Differing, FileError, FrameError, OpenError};
use std::alloc::AllocError;
use std::io;
use thiserror::Error;

/// Why a server doesn't go on. The file is as it was, but for a torn frame at its end.
#[derive(Clone, Copy, Debug, Error)]
pub enum KeepError {
    /// The file isn't opened.
    #[error("{0}")]
    Open(#[from] OpenError),
    /// It is no journal, or damaged.
    #[error("{0}; nothing was changed")]
    File(#[from] FileError),
    /// Its server began otherwise than the words say.
    #[error("was begun with another {0}; nothing was changed")]
    Differs(Differing),
    /// A frame isn't written.
    #[error("{0}")]
    Frame(#[from] FrameError),
    /// Its server can't be made again.
    #[error("{0}; nothing was changed")]
    Revival(#[from] RevivalError),
    /// A server that is begun anew would hold something else.
    #[error("what its paths held can't all be held anew; nothing was changed")]
    Unheld,
    /// The file, the clock or the machine failed.
    #[error("{0}")]
    Io(#[from] io::Error),
    /// An allocation was refused.
    #[error("no memory for the journal")]
    Memory,
}

impl From<AllocError> for KeepError {
    fn from(_: AllocError) -> KeepError {
        KeepError::Memory
    }
}
